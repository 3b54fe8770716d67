//! Individual addresses (ISO/IEC 14543-3-1 and 3-5): the one unit in programming mode gets an address, over a tunnel.
#![tactic(auto)]

mod ask;
mod close;
mod ear;
mod frames;
mod giving;
mod open;
mod search;
mod talk;
mod told;
mod turn;
mod wait;

pub use address_talk::{AssignFault, Assigned};
pub use address_world::{AddressLink, Plain};
pub use giving::assign;
pub use knx_model::{IndAddr, NoMemory};
pub use line_model::Try;
