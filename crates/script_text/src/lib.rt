//! The text of a script: the losses, repeats, cuts, closings and refusals of a run, and its group telegrams, line by line.
#![tactic(auto)]

mod devices;
mod fields;
mod laws;
mod line;
mod read;
mod script;

pub use devices::{device_named, first_stranger};
pub use knx_model::{GroupService, Refused, ScriptLine, ScriptWhat, Why};
pub use laws::{first_misfit, least_line, least_stranger, line_spelled, words_too_many_or_few};
pub use read::read_script;
pub use script::Script;
