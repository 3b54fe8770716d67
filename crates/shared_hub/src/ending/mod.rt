//! The end of a run, by one caller.

mod close;
mod closing;

ghost use Rattle.std.specs.Prelude.{◌≡◌, ℕ, None};
ghost use Rattle.hub_core.specs.Commissioned.{TellsRun, log_of};
ghost use Rattle.hub_core.specs.Heard.{HeardIn};
ghost use Rattle.hub_core.specs.Left.{AllDone};
ghost use Rattle.hub_core.specs.Seats.{IsOfWorkers};
ghost use Rattle.hub_core.specs.Seen.{tasks_seen};
ghost use Rattle.line_model.specs.LinkStory.{record_in};
ghost use Rattle.line_model.specs.Polled.{after_fault};
ghost use Rattle.line_model.specs.declared.outside.fault_counts.FaultCounts.{FaultCounts};
ghost use Rattle.shared_hub.specs.Leaving.{GoesThrough};
ghost use Rattle.tunnel_link.specs.Goes.{GoesOn};

use crate::heard::Heard;
use hub_core::{Hub, HubFault};
use line_model::{Link, Report};
use std::sync::Wait;

/// A hub in its closing, whose only caller this is, and the group telegrams that were heard.
#[derive(Drop)]
pub struct Ending<L: Link> {
    pub hub: Hub<L>,
    pub heard: Heard,
}

impl<L: Link> Ending<L> {
    /// Goes through the closing, unless the hub has ended so, and hands the link back with what is told of the run.
    pub fn end<R: Wait>(self, rt: &R, ended: Option<HubFault>) -> (L, Report)
        requires done { ended ≡ None → AllDone self.hub }
        requires fault { ended ≡ self.hub.fault }
        requires through { GoesThrough self.hub (L.story self.hub.link) }
        requires heard { HeardIn self.hub.fault self.hub.missed self.heard (record_in (L.story self.hub.link)) }
        ensures grows { GoesOn (L.story self.hub.link) (L.story result.0) }
        ensures script { L.script result.0 ≡ L.script self.hub.link }
        ensures log { log_of result.1 ≡ self.hub.log }
        ensures tells { (workers : ℕ) → IsOfWorkers workers self.hub.log → TellsRun workers (tasks_seen self.hub.jobs) self.hub.devices self.hub.turns (L.story result.0) (L.place result.0) result.1 }
        ensures counts { (before : FaultCounts) → L.faults self.hub.link ≡ after_fault self.hub.fault before → L.faults result.0 ≡ after_fault result.1.fault before }
    {
        let mut ending = self;
        match ended {
            Some(fault) => ending.close(Some(fault)),
            None => match ending.closes(rt) {
                Ok(()) => ending.close(None),
                Err(fault) => ending.close(Some(fault)),
            },
        }
    }
}
