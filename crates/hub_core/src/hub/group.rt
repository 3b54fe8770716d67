//! The group telegrams.

ghost use Rattle.std.specs.Prelude.{◌≡◌, ◌≢◌, ◌≤◌, IfErr, IfOk, IfSome, OnErr, OnOk, Some, None, true, false};
ghost use Rattle.tunnel_link.specs.Adds.{Growing};
ghost use Rattle.tunnel_link.specs.Alone.{Each, LeavesAlone};
ghost use Rattle.line_model.specs.Log.{IsNextTurn, TurnUnfinished};
ghost use Rattle.hub_core.specs.Telegrams.{GroupTells};
ghost use Rattle.hub_core.specs.declared.answers.GroupDid.TheVariants as step;
ghost use Rattle.hub_core.specs.Hears.{HearsFew, HearsSo};
ghost use Rattle.hub_core.specs.Left.{AllDone, IsLeft};
ghost use Rattle.hub_core.specs.Puts.{PutsRequest};
ghost use Rattle.hub_core.specs.Waits.{WaitsExactly};
ghost use Rattle.hub_core.specs.Seen.{StaysEnded};
ghost use Rattle.hub_core.specs.Since.{Since};

use super::Hub;
use crate::answers::GroupDid;
use hub_work::{Stage, places_are_free};
use line_model::{HubFault, Link, LogWhat};

impl<L: Link> Hub<L> {
    /// The least group telegram that isn't told, from 1; None exactly where all are told.
    pub fn next_group(&self) -> Option<u32>
        ensures next { IfSome result (λ k. IsNextTurn self.now.turns self.now.log k) }
        ensures all { result ≡ None → ¬ TurnUnfinished self.now.turns self.now.log }
    {
        self.work.next_group()
    }

    /// Whether something is left to do: a job that has no end yet, or a group telegram that isn't told.
    pub fn has_work_left(&self) -> bool
        ensures left { result ≡ true → IsLeft self.now }
        ensures done { result ≡ false → AllDone self.now }
    {
        self.work.is_unfinished() || self.next_group().is_some()
    }

    /// One step of the group telegram `k`, from 1, which is the least that isn't told: its request is put, or it is told sent or lost.
    pub fn send_group(&mut self, k: u32) -> Result<GroupDid, HubFault>
        requires next { IsNextTurn self.old.turns self.old.log k }
        ensures since { Since L.story L.script L.faults self.old self.new }
        ensures stands { OnOk result (self.new.fault ≡ None) }
        ensures heard { OnOk result (HearsSo None (L.story self.old.link) (L.story self.new.link)) }
        ensures few { OnErr result (HearsFew (L.story self.old.link) (L.story self.new.link)) }
        ensures waits { IfOk result (λ did. WaitsExactly self.old.jobs self.old.turns self.old.log (L.place self.old.link) k did (L.story self.old.link)) }
        ensures told { IfOk result (λ did. GroupTells (L.place self.old.link) k did self.old.log self.new.log) }
        ensures untold { OnErr result (self.new.log ≡ self.old.log) }
        ensures alone { Growing (Each LeavesAlone) (L.story self.old.link) (L.story self.new.link) }
        ensures still { IfOk result (λ did. did ≢ step.Put → self.new.link ≡ self.old.link) }
        ensures puts { IfOk result (λ did. did ≡ step.Put → PutsRequest (L.story self.old.link) (L.story self.new.link)) }
        ensures crew { self.new.crew ≡ self.old.crew }
        ensures closing { self.new.closing ≡ self.old.closing }
        ensures ended { StaysEnded self.old.fault result self.new.fault (self.new.link ≡ self.old.link) }
        ensures fault { IfErr result (λ fault. self.new.fault ≡ Some fault) }
    {
        if let Some(fault) = self.tunnel.fault() {
            return Err(fault);
        }
        let at = self.tunnel.at();
        match self.work.stage() {
            Stage::UnderWay => Ok(GroupDid::Wait),
            Stage::Confirmed => {
                self.work.tell_telegram(at, k, LogWhat::Sent(k));
                Ok(GroupDid::Sent)
            }
            Stage::Lost => {
                self.work.tell_telegram(at, k, LogWhat::Lost(k));
                Ok(GroupDid::Lost)
            }
            Stage::Unput => {
                if !self.tunnel.has_place() {
                    return Ok(GroupDid::Wait);
                }
                let Some(cemi) = self.work.telegram() else {
                    return Ok(GroupDid::Wait);
                };
                self.tunnel.keeps();
                places_are_free();
                self.work.telegram_put();
                self.tunnel.put(&cemi)?;
                Ok(GroupDid::Put)
            }
        }
    }
}
