//! What a hub does without any link: the jobs with their downloaders, the workers, the group telegrams, and the log.
//!
//! A frame of a device, a confirmation and the loss of the channel are told to the downloader at once, at the time of the link's record; what
//! waits for a worker's turn is only the count of them, so that no frame waits in memory.
#![tactic(auto)]

mod answers;
mod closing;
mod crew;
mod downloaders;
mod job;
mod journal;
mod laws;
mod requests;
mod telegrams;
mod work;

pub use answers::Turned;
pub use closing::Closing;
pub use crew::Held;
pub use download_core::{CheckPlan, Gone, JobPlan, LoadPlan};
pub use job::HubJob;
pub use laws::{moments_go_on, places_are_free};
pub use line_model::{GroupTurn, Indication, LogEntry, LogWhat};
pub use telegrams::Stage;
pub use work::{Turn, Work};
