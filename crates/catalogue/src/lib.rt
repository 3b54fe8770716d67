//! The catalogue of device models, read from a TOML document.
#![tactic(auto)]

mod fields;
mod laws;
mod models;
mod read;
mod repeats;
mod stated;
mod tables;
mod taken;
mod values;

pub use knx_model::{CatRefused, Catalogue, Model, ModelField, ModelObject, NamedModel};
pub use laws::{first_refused, taken_whole};
pub use read::read_catalogue;
