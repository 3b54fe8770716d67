//! The report of a run, what is told of a checked project, and where a call stops, as text.
#![tactic(auto)]

mod laws;
mod line_report;
mod pieces;
mod project;
mod refusal;
mod words;

pub use call_words::{Case, JobKind, JobWord};
pub use knx_model::{Counts, Sign};
pub use laws::{a_run_is_done_where_each_job_is, a_run_is_read_from_its_text};
pub use line_report::{DeviceShown, line_report_of, line_status, put_fault, sums_text};
pub use pieces::{put_digits, put_hex, put_value};
pub use project::{counts_text, tables_text};
pub use refusal::{NO_MEMORY, USAGE, stop_status, stop_text};
