//! The parts that the commands have in common: their options and addresses, what they read, the tests of projects and scripts in their order, the
//! jobs and telegrams that words and lines name, and how a call ends, with its text and status.
#![tactic(auto)]

mod ending;
mod given;
mod host;
mod identity;
mod input;
mod jobs;
mod option_values;
mod options;
mod project;
mod searched;
mod turns;

pub use ending::{End, Reported, ServiceEnd, tell, tell_end};
pub use given::AssignEnd;
pub use host::{GatewayAddress, address_in, are_digits};
pub use identity::{about_gateway, own_endpoint};
pub use input::{Reading, read_after, read_named};
pub use jobs::{all_planned, are_known, images_for, jobs_of};
pub use option_values::{FileName, JobWords, Workers, from_1_to};
pub use options::{SimOptions, behind, project_options, sim_options};
pub use project::{
    ProjectNames, ProjectTexts, models_in, project_in, project_names, read_in, read_of,
    read_project_texts, refusal, script_in, sound_in, unknown_job,
};
pub use searched::SearchEnd;
pub use turns::turns_of;
