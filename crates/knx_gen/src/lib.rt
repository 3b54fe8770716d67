//! A project of many devices from a number: the same number always makes the same project.
#![tactic(auto)]

mod group_names;
pub mod laws;
mod numbers;
mod project;

pub use group_names::GroupNames;
pub use project::project_from;
