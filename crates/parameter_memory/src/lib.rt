//! The parameter memory of a device: the fields of its model, each with the value that is set or its default.
#![tactic(auto)]

mod bits;
mod laws;
mod laying;
mod reading;

pub use knx_model::{Model, ModelField, NoMemory, Octets, ParamValue};
pub use laws::{one_memory, setting_or_default};
pub use laying::lay;
pub use reading::value_at;
