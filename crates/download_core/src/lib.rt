//! The downloader of one job: three attempts, each over a numbered connection (ISO/IEC 14543-3-2, transport layer), and each through the
//! job's plan from its first operation on. It is a value that is told frames, confirmations and times, and that answers what is to be sent.
//!
//! ```
//! /// A load goes on until a frame is to be sent: with T_Connect at 0 ms, and when that is confirmed at 20 ms, with the first operation of the plan.
//! fn first_frames(device: IndAddr, image: Image) -> (Did, Did)
//!     requires { Fits image }
//! {
//!     let mut downloader = Downloader::new(device, JobPlan::Load(LoadPlan::of(image)));
//!     let connect = downloader.step(0);
//!     downloader.confirmed(false, 20);
//!     (connect, downloader.step(20))
//! }
//! ```
#![tactic(auto)]

mod did;
mod downloader;
mod flight;
mod gone;
mod job_plan;
mod laws;
mod outcome;
mod owed;
mod phase;
mod position;
mod question;
mod run;
mod sending;
mod signs;
mod suits;

pub use did::Did;
pub use download_plan::{CheckPlan, LoadPlan};
pub use downloader::Downloader;
pub use flight::Flight;
pub use gone::Gone;
pub use job_plan::JobPlan;
pub use laws::{
    each_operation_can_be_sent, ends_are_told_truly, flights_are_known, follows_the_record,
    steps_are_turns, steps_exactly,
};
pub use outcome::{Outcome, Refusal};
pub use signs::Signs;
