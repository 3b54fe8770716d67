//! What is told of a run.

ghost use Rattle.std.specs.Prelude.{◌≡◌, ℕ, None, List};
ghost use Rattle.hub_core.specs.Commissioned.{TellsRun, log_of};
ghost use Rattle.hub_core.specs.Left.{AllDone};
ghost use Rattle.hub_core.specs.Promises.{LeavesOver};
ghost use Rattle.hub_core.specs.Seen.{tasks_seen};
ghost use Rattle.hub_core.specs.Closed.{HasClosed};
ghost use Rattle.hub_core.specs.Heard.{HeardIn};
ghost use Rattle.hub_core.specs.Seats.{IsOfWorkers};
ghost use Rattle.hub_work.specs.Books.{AreJobsOf};
ghost use Rattle.line_model.specs.LinkStory.{record_in};
ghost use Rattle.line_model.specs.Polled.{after_fault};
ghost use Rattle.line_model.specs.declared.outside.fault_counts.FaultCounts.{FaultCounts};
ghost use Rattle.line_model.specs.Log.{Job};
ghost use Rattle.tunnel_link.specs.Rights.{WhereTold};

use super::Ending;
use hub_core::{HubEnd, HubFault};
use line_model::{Link, Report};

impl<L: Link> Ending<L> {
    /// Hands the link back, and what is told of a run that has ended for this fault of the hub, or without one.
    pub(super) fn close(self, ended: Option<HubFault>) -> (L, Report)
        requires fault { ended ≡ self.hub.fault }
        requires done { ended ≡ None → AllDone self.hub }
        requires closed { ended ≡ None → WhereTold (HasClosed self.hub.log) (L.story self.hub.link) }
        requires heard { HeardIn self.hub.fault self.hub.missed self.heard (record_in (L.story self.hub.link)) }
        requires leaves { (all : List Job) → AreJobsOf self.hub.devices all → LeavesOver all self.hub.turns (L.story self.hub.link) self.hub.log }
        ensures link { result.0 ≡ self.hub.link }
        ensures log { log_of result.1 ≡ self.hub.log }
        ensures tells { (workers : ℕ) → IsOfWorkers workers self.hub.log → TellsRun workers (tasks_seen self.hub.jobs) self.hub.devices self.hub.turns (L.story result.0) (L.place result.0) result.1 }
        ensures counts { (before : FaultCounts) → L.faults self.hub.link ≡ after_fault self.hub.fault before → L.faults result.0 ≡ after_fault result.1.fault before }
    {
        let Ending { hub, heard } = self;
        hub.keeps();
        let HubEnd {
            link,
            log,
            missed,
            dropped,
            fault: _,
        } = hub.close();
        let report = Report {
            log,
            heard: heard.into_list(),
            missed,
            dropped,
            fault: ended,
        };
        (link, report)
    }
}
