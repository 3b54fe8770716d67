//! The closing.

ghost use Rattle.std.specs.Prelude.{◌≡◌, ◌⊎◌, None, Some, false, true, List, IfErr, IfOk, OnOk};
ghost use Rattle.hub_core.specs.Closes.{IsOver};
ghost use Rattle.hub_core.specs.Left.{AllDone};
ghost use Rattle.hub_core.specs.Promises.{LeavesOver};
ghost use Rattle.hub_core.specs.Closed.{HasClosed};
ghost use Rattle.hub_core.specs.Heard.{HeardIn};
ghost use Rattle.shared_hub.specs.Leaving.{ClosesSo, GoesThrough, KnowsHowFar};
ghost use Rattle.shared_hub.specs.Relays.{GoesOnFrom, HearsOne};
ghost use Rattle.hub_work.specs.Books.{AreJobsOf};
ghost use Rattle.line_model.specs.LinkStory.{record_in};
ghost use Rattle.line_model.specs.Log.{Job};
ghost use Rattle.line_model.specs.Record.{entries};
ghost use Rattle.tunnel_link.specs.Rights.{WhereTold};

use super::Ending;
use hub_core::{Finished, HubFault};
use line_model::Link;
use std::sync::Wait;

impl<L: Link> Ending<L> {
    /// The closing.
    pub(super) fn closes<R: Wait>(&mut self, rt: &R) -> Result<(), HubFault>
        requires done { AllDone self.old.hub }
        requires through { GoesThrough self.old.hub (L.story self.old.hub.link) }
        requires stands { self.old.hub.fault ≡ None }
        requires heard { HeardIn self.old.hub.fault self.old.hub.missed self.old.heard (record_in (L.story self.old.hub.link)) }
        ensures since { GoesOnFrom L.story L.script L.faults self.old.hub self.new.hub }
        ensures leaves { (all : List Job) → AreJobsOf self.new.hub.devices all → LeavesOver all self.new.hub.turns (L.story self.new.hub.link) self.new.hub.log }
        ensures log { self.new.hub.log ≡ self.old.hub.log }
        ensures done { OnOk result (AllDone self.new.hub) }
        ensures closed { OnOk result (WhereTold (HasClosed self.new.hub.log) (L.story self.new.hub.link)) }
        ensures stands { OnOk result (self.new.hub.fault ≡ None) }
        ensures heard { HeardIn self.new.hub.fault self.new.hub.missed self.new.heard (record_in (L.story self.new.hub.link)) }
        ensures fault { IfErr result (λ fault. self.new.hub.fault ≡ Some fault) }
    {
        for _ in rt.forever() {
            if self.finishes()? {
                break;
            }
        }
        Ok(())
    }

    /// One step of the closing. Tells whether it is over.
    fn finishes(&mut self) -> Result<bool, HubFault>
        requires done { AllDone self.old.hub }
        requires closes { ClosesSo self.old.hub (L.story self.old.hub.link) }
        requires far { KnowsHowFar self.old.hub (L.story self.old.hub.link) }
        requires stands { self.old.hub.fault ≡ None }
        requires heard { HeardIn self.old.hub.fault self.old.hub.missed self.old.heard (record_in (L.story self.old.hub.link)) }
        ensures since { GoesOnFrom L.story L.script L.faults self.old.hub self.new.hub }
        ensures closes { ClosesSo self.new.hub (L.story self.new.hub.link) }
        ensures far { OnOk result (KnowsHowFar self.new.hub (L.story self.new.hub.link)) }
        ensures log { self.new.hub.log ≡ self.old.hub.log }
        ensures done { OnOk result (AllDone self.new.hub) }
        ensures closed { IfOk result (λ over. over ≡ true → WhereTold (HasClosed self.new.hub.log) (L.story self.new.hub.link)) }
        // it isn't told over just where it isn't, or where something was heard, which counts first
        ensures goes_on { IfOk result (λ over. over ≡ false → HearsOne (L.story self.old.hub.link) (L.story self.new.hub.link) ⊎ WhereTold (λ places. ¬ IsOver self.new.hub.closing (entries places)) (L.story self.new.hub.link)) }
        ensures stands { OnOk result (self.new.hub.fault ≡ None) }
        ensures heard { HeardIn self.new.hub.fault self.new.hub.missed self.new.heard (record_in (L.story self.new.hub.link)) }
        ensures fault { IfErr result (λ fault. self.new.hub.fault ≡ Some fault) }
    {
        match self.hub.finish()? {
            Finished::Heard(indication) => {
                self.heard.keep(&mut self.hub, indication);
                Ok(false)
            }
            Finished::Going => Ok(false),
            Finished::Over => {
                self.hub.keeps();
                Ok(true)
            }
        }
    }
}
