//! The world in which individual addresses are given (ISO/IEC 14543-3-1 and 3-5): units on a bus behind a tunnel, what a link tells of them, and
//! what is kept of their addresses.
#![tactic(auto)]

mod asked;
mod laws;
mod link;
mod plain;
mod unit;

pub use asked::Asked;
pub use knx_model::{IndAddr, List};
pub use laws::{requests_are_those_that_were_put, units_keep_their_addresses};
pub use line_model::{Link, LinkFault, Polled};
pub use link::AddressLink;
pub use plain::Plain;
pub use unit::{Unit, UnitLoss, UnitScript};
