//! The outside of a live line: the link to a gateway, the port where a gateway serves, what dials and binds them, and what watches a run.

mod dialer;
mod fault_counts;
mod gate;
mod link;
mod port;
mod watcher;

pub use dialer::{DialFailed, Dialer};
pub use fault_counts::FaultCounts;
pub use gate::{Gate, Open};
pub use link::{Link, LinkFault, Polled};
pub use port::{Port, PortFault, PortPolled};
pub use watcher::{JobProgress, Watcher};
