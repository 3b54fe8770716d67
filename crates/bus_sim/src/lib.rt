//! The simulated line: a whole line in memory, gateway, bus and devices, that loses, repeats, tears, wears, closes and cuts just where a script says
//! so. It is driven as a link, or serves at a port.
//!
//! ```
//! /// A line with one blank device, on which nothing goes wrong.
//! fn blank_line(alloc: Global) -> Result<SimBus, Refused> {
//!     let script = Script {
//!         lines: List::new(alloc),
//!     };
//!     let mut line = SimBus::empty(alloc);
//!     line.load(alloc, TUNNEL, &[(DEVICE, None)], &script)?;
//!     line.keeps(); // what each run keeps, for the proofs of its caller
//!     Ok(line)
//! }
//! ```
#![tactic(auto)]

mod again;
mod beginning;
mod bus;
mod called;
mod carry;
mod client;
mod clients;
mod counts;
mod deliver;
mod driving;
mod events;
mod going;
mod happened;
mod link;
mod nexts;
mod noted;
mod owed;
mod poll;
mod reaching;
mod room;
mod run;
mod sends;
mod serve;
mod serving;
mod stopped;
mod turn;

pub use bus::SimBus;
pub use line_model::{Link, LinkFault, Polled, Port, PortFault};
pub use line_sim::Device;
pub use script_text::{Refused, Script};
pub use serve::Served;
