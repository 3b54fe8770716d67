//! The rules that look at a whole project text and at the catalogue.
#![tactic(auto)]

mod broken;
mod by_address;
mod checked;
mod counted;
mod declared;
mod devices;
mod earlier;
mod gathering;
mod group_object;
mod known;
mod laws;
mod links;
mod models;
mod named_models;
mod parts;
mod rules;

pub use by_address::ByAddress;
pub use checked::{Checked, check, check_in_threads};
pub use knx_model::Counts;
pub use laws::least_broken;
