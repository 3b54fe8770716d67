//! The words of a call: the jobs that it names, the files that it reads, why it stops, how it ends, and what is printed of a run.
#![tactic(auto)]

mod case;
mod input_file;
mod job_word;
mod laws;
mod status;
mod stop;

pub use case::Case;
pub use input_file::InputFile;
pub use job_word::{JobKind, JobWord};
pub use laws::a_report_is_printed;
pub use status::Status;
pub use stop::Stop;
