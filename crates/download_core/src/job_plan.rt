//! The plan of a job.

ghost use Rattle.std.specs.Prelude.{◌≡◌};
ghost use Rattle.download_core.specs.JobPlans.{job_count, job_left};

use download_plan::{CheckPlan, LoadPlan};
use knx_model::{Op, PlanSource};

/// The plan of a job: one that loads an image, or one that checks whether it runs.
#[derive(Drop)]
pub enum JobPlan {
    Load(LoadPlan),
    Check(CheckPlan),
}

impl PlanSource for JobPlan {
    ghost use Rattle.download_core.specs.JobPlans.{job_count, job_left};

    ghost count = { job_count };

    ghost left = { job_left };

    fn len(&self) -> u32 {
        match self {
            JobPlan::Load(plan) => plan.len(),
            JobPlan::Check(plan) => plan.len(),
        }
    }

    fn op(&self, k: u32) -> Op {
        match self {
            JobPlan::Load(plan) => plan.op(k),
            JobPlan::Check(plan) => plan.op(k),
        }
    }

    fn note(&mut self, k: u32, got: &[u8]) {
        match self {
            JobPlan::Load(plan) => plan.note(k, got),
            JobPlan::Check(plan) => plan.note(k, got),
        }
    }
}
