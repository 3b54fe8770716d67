//! What a parameter memory tells, whoever laid it.

ghost use Rattle.std.specs.Prelude.{◌≡◌, ℕ, List, Contains};
ghost use Rattle.knx_model.specs.declared.catalogue.model.Model.{Model as DeviceModel};
ghost use Rattle.knx_model.specs.declared.catalogue.model.ModelField.{ModelField};
ghost use Rattle.knx_model.specs.declared.config.ParamValue.{ParamValue};
ghost use Rattle.knx_model.specs.Parameters.{HoldsParameters, field_value, laid, set_value};

/// A field of what is laid has the value that is set for it, or its default.
#[tactic(auto, unfolding(knx_model::specs::Parameters::laid))]
pub fn setting_or_default()
    ensures { (model : DeviceModel) (settings : List ParamValue) (memory : List ℕ) (field : ModelField) → HoldsParameters memory model.params (laid model settings) → Contains model.parameters field → field_value memory field.bit field.width ≡ set_value settings field }
{}

/// There is just one memory of so many octets in which these fields hold these values.
pub fn one_memory()
    ensures { (len : ℕ) (params : List ParamValue) (one other : List ℕ) → HoldsParameters one len params → HoldsParameters other len params → one ≡ other }
{}
