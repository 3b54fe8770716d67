//! The text of a simulated bus of units: each unit with its address and whether it is in programming mode, and what is lost, line by line.
#![tactic(auto)]

mod address;
mod fields;
mod laws;
mod line;
mod read;

pub use address_world::{Unit, UnitLoss, UnitScript};
pub use knx_model::{IndAddr, Refused, Why};
pub use laws::{least_line, line_spelled};
pub use read::read_units;
