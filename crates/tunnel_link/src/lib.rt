//! The client's end of a tunnel over a link (ISO 22510, Core and Tunnelling): the part of a hub that knows of no job. It sends what the
//! channel asks for, takes what comes, keeps the one place in flight, and counts the tries and the datagrams that are dropped. Its type keeps
//! that all it did on the link was right.
//!
//! ```
//! /// Asks for a channel and polls until it is open, so many times at most.
//! fn open<L: Link>(tunnel: &mut Tunnel<L>, polls: u32) -> Result<bool, HubFault> {
//!     for _ in 0..polls {
//!         tunnel.act()?;
//!         tunnel.seek()?;
//!         tunnel.poll(100)?;
//!         if tunnel.is_open() {
//!             return Ok(true);
//!         }
//!     }
//!     Ok(false)
//! }
//! ```
#![tactic(auto)]

mod came;
mod flight;
mod got;
mod known;
mod lapse;
mod sending;
mod tries;
mod tunnel;

pub use came::{Answer, Came, Loss, What};
pub use flight::Flight;
pub use known::Known;
pub use line_model::{HubFault, Link, LinkFault, Polled, Try};
pub use tries::Tries;
pub use tunnel::Tunnel;
