//! The operation that comes next.

ghost use Rattle.std.specs.Prelude.{◌≡◌};
ghost use Rattle.download_core.specs.JobPlans.{job_left};
ghost use Rattle.download_core.specs.Keeps.{IsNextOf};

use crate::job_plan::JobPlan;
use knx_model::{ApduOctets, Expect, Op, PlanSource};

/// An operation of a plan, with its place.
#[derive(Drop)]
pub struct Question {
    pub place: u32,
    pub apdu: ApduOctets,
    pub expect: Expect,
}

/// The operation that comes next, from a place on; None exactly where all are over.
pub fn next_question(plan: &JobPlan, from: u32) -> Option<Question>
    ensures { IsNextOf (job_left plan.now) from result }
{
    if from >= plan.len() {
        return None;
    }
    let Op { apdu, expect } = plan.op(from);
    Some(Question {
        place: from,
        apdu,
        expect,
    })
}
