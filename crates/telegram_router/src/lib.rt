//! The way of heard group telegrams from where they are taken to where they are reported: a queue of 4,096 places, with one feed that pushes and one ear that pops.
#![tactic(auto)]

mod ends;
mod full;
mod router;
mod rule;
mod view;

pub use ends::{Ear, Feed};
pub use full::Full;
pub use knx_model::NoMemory;
pub use line_model::Indication;
pub use router::Router;
