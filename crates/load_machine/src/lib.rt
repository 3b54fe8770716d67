//! The load machine of a device (ISO/IEC 14543-3-4, management, after System B): load state and segment length of each loadable
//! object, and what a load event makes of them. Whoever has the memory of the segments keeps it beside this.
#![tactic(auto)]

mod loads;
mod machine;
mod octets;

pub use knx_model::{LoadEvent, LoadState, LoadableObject};
pub use loads::{Loads, Segment};
pub use machine::LoadMachine;
pub use octets::{load_event, load_octets};
