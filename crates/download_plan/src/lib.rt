//! The plans that load an image and that check whether a device runs it: their operations, and that each beginning of a load leaves
//! a device as it was, stopped, or with the image.
#![tactic(auto)]

mod answer;
mod check_plan;
pub mod laws;
mod load_plan;
mod opening;
mod operation;
mod place;
mod step;

pub use answer::suits;
pub use check_plan::CheckPlan;
pub use knx_model::{Expect, Op, PieceSize, PlanSource};
pub use load_plan::LoadPlan;
