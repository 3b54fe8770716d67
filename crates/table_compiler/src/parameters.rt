//! The parameters that the lines of a device set, and the parameter memory that holds them.

ghost use Rattle.std.specs.Prelude.{◌≡◌, List, IfOk};
ghost use Rattle.knx_model.specs.declared.address.IndAddr.{IndAddr};
ghost use Rattle.knx_model.specs.declared.project.Statement.{Statement as Stated};
ghost use Rattle.table_compiler.specs.Settings.{HoldsValues, setting, settings};

use knx_model::{Model, ModelField, ParamValue};
use std::alloc::{AllocError, Global};
use std::collections::BTreeMap;

/// The setting of a field, where its name has a value.
fn setting(values: &BTreeMap<&[u8], u32>, field: &ModelField) -> Option<ParamValue>
    ensures { (device : IndAddr) (ss : List Stated) → HoldsValues values.now device ss → result ≡ setting device ss field.now }
{
    let value = values.get(field.name.as_slice())?;
    Some(ParamValue {
        bit: field.bit,
        width: field.width,
        value: *value,
    })
}

/// The settings of the fields of the model that lines of the device set.
pub fn settings(
    alloc: Global,
    model: &Model,
    values: &BTreeMap<&[u8], u32>,
) -> Result<Vec<ParamValue>, AllocError>
    ensures { IfOk result (λ found. (device : IndAddr) (ss : List Stated) → HoldsValues values.now device ss → found.items ≡ settings model.now device ss) }
{
    model
        .parameters
        .as_slice()
        .iter()
        .filter_map(|field| setting(values, field))
        .collect(alloc)
}
