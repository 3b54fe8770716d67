//! Which job may begin: a job is given to a worker where no other job of its device is held and no earlier one of it is untaken, the lowest
//! first.
#![tactic(auto)]

mod bits;
mod chains;
mod jobs;
mod laws;
mod stage;
mod taken;

pub use jobs::Jobs;
pub use knx_model::{IndAddr, NoMemory};
pub use laws::one_downloader_per_device;
pub use stage::Stage;
pub use taken::Taken;
