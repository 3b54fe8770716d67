//! The hub: all jobs of a line and its group telegrams over one tunnel, call by call, from whichever worker, with nothing on the wire but
//! what the jobs ask for.
//!
//! ```
//! /// Does all jobs as the hub's only worker, in so many turns at most: it polls where a turn has nothing to do.
//! fn work<L: Link>(hub: &mut Hub<L>, turns: u32) -> Result<bool, HubFault>
//!     requires { 1 ≤ length hub.old.crew }
//! {
//!     for _ in 0..turns {
//!         match hub.turn(1)? {
//!             Turned::NoMore => return Ok(true),
//!             Turned::Wait | Turned::Later => {
//!                 hub.pump()?;
//!             }
//!             _ => {}
//!         }
//!     }
//!     Ok(false)
//! }
//! ```
#![tactic(auto)]

mod answers;
mod end;
mod hub;

pub use answers::{Finished, GroupDid, Pumped};
pub use end::HubEnd;
pub use hub::Hub;
pub use hub_work::{CheckPlan, HubJob, JobPlan, LoadPlan, Turned};
pub use line_model::{GroupTurn, HubFault, Indication, LogEntry, LogWhat, Try};
