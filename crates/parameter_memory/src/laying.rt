//! Settings laid into a parameter memory.

ghost use Rattle.std.specs.Prelude.{◌≡◌, ◌+◌, ◌*◌, ◌<◌, ◌≤◌, ◌^◌, [], length, All, IfOk};
ghost use Rattle.knx_model.specs.declared.catalogue.model.Model.{Model as DeviceModel};
ghost use Rattle.knx_model.specs.Models.{AllApart, IsField, IsModel};
ghost use Rattle.knx_model.specs.Parameters.{HoldsParameters, bits_of, laid, set_value, AreSettings};
ghost use Rattle.parameter_memory.specs.Bits.{AreOctets, HoldsFields, LiesWithin};

use crate::bits::write_value;
use knx_model::{Model, ModelField, NoMemory, Octets, ParamValue};
use std::alloc::Global;

/// Writes the defaults of the fields.
fn write_defaults(memory: &mut [u8], fields: &[ModelField])
    requires fields { All (IsField (length memory.old)) fields.now }
    requires apart { AllApart fields.now }
    requires blank { HoldsFields (bits_of memory.old) [] (set_value []) }
    ensures octets { AreOctets memory.old → AreOctets memory.new }
    ensures holds { HoldsFields (bits_of memory.new) fields.now (set_value []) }
{
    for field in fields {
        write_value(
            memory,
            field.bit as usize,
            usize::from(field.width),
            field.default,
        );
    }
}

/// Writes the values of the settings.
fn write_settings(memory: &mut [u8], settings: &[ParamValue])
    requires { All (LiesWithin (8 * length memory.old)) settings.now }
    ensures octets { AreOctets memory.old → AreOctets memory.new }
    ensures holds { (m : DeviceModel) → IsModel m → AreSettings m settings.now → length memory.old ≡ m.params → HoldsFields (bits_of memory.old) m.parameters (set_value []) → HoldsFields (bits_of memory.new) m.parameters (set_value settings.now) }
{
    for setting in settings {
        write_value(
            memory,
            setting.bit as usize,
            usize::from(setting.width),
            setting.value,
        );
    }
}

/// The parameter memory of a model's device with these settings: each field holds its setting, or its default where it has
/// none, with the highest bit first, and the bits of no field are 0.
pub fn lay(alloc: Global, model: &Model, settings: &[ParamValue]) -> Result<Octets, NoMemory>
    requires model { IsModel model.now }
    requires settings { AreSettings model.now settings.now }
    ensures { IfOk result (λ memory. HoldsParameters memory model.now.params (laid model.now settings.now)) }
{
    let mut memory = vec![in alloc; 0; usize::from(model.params)]?;
    write_defaults(memory.as_mut_slice(), model.parameters.as_slice());
    write_settings(memory.as_mut_slice(), settings);
    Ok(Octets::from_vec(memory))
}
