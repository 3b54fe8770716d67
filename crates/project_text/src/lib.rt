//! The text of a project: its statements, line by line.
#![tactic(auto)]

mod fields;
mod grammar;
mod laws;
mod line;
mod migration;
mod print;
mod project;
mod read;

pub use knx_model::{Groups, Refused, Statement, TextVersion, What, Why};
pub use laws::{
    first_misfit, least_line, migrated_breaks_no_rule, migrated_means_the_same,
    migrated_reads_again, migrated_twice, printed_again, statement_spelled, version_by_first_line,
    words_too_many_or_few,
};
pub use migration::migrate;
pub use print::print_project;
pub use project::Project;
pub use read::{read_project, read_project_in_threads};
