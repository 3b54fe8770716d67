//! One poll of the link, with what is due before it.

ghost use Rattle.std.specs.Prelude.{◌≡◌, ◌≤◌, ◌||◌, is_some, IfErr, IfOk, OnOk, Some, None, OnErr};
ghost use Rattle.tunnel_link.specs.Adds.{AllNothing, Growing, HasActed, Ready};
ghost use Rattle.tunnel_link.specs.Alone.{Each, EndsNone, LeavesAlone};
ghost use Rattle.tunnel_link.specs.Rights.{WhereTold};
ghost use Rattle.hub_core.specs.Came.{Comes};
ghost use Rattle.hub_core.specs.Closes.{HasDone, MayAwaitNow, Resumes, WaitsNow};
ghost use Rattle.hub_core.specs.Leaving.{WaitsOn};
ghost use Rattle.hub_core.specs.Hears.{HearsFew, HearsSo, heard_of};
ghost use Rattle.hub_core.specs.Polls.{Polls, SendsOnly};
ghost use Rattle.hub_core.specs.Pumps.{AddsSo, AnswersSo, PumpsSo, Does, is_late_now, is_left_now, Moves};
ghost use Rattle.hub_core.specs.Seen.{StaysEnded};
ghost use Rattle.hub_core.specs.Since.{Since};

use super::Hub;
use super::taking::{Polled, ending, take_in};
use crate::answers::Pumped;
use hub_work::moments_go_on;
use line_model::{HubFault, Link};

impl<L: Link> Hub<L> {
    /// Does what is due, asks for a channel where there is none and the closing hasn't begun, and makes one poll.
    pub fn pump(&mut self) -> Result<Pumped, HubFault>
        ensures since { Since L.story L.script L.faults self.old self.new }
        ensures stands { OnOk result (self.new.fault ≡ None) }
        ensures heard { IfOk result (λ pumped. HearsSo (heard_of pumped) (L.story self.old.link) (L.story self.new.link)) }
        ensures few { OnErr result (HearsFew (L.story self.old.link) (L.story self.new.link)) }
        ensures says { IfOk result (λ pumped. PumpsSo (is_some self.old.closing) pumped (L.story self.old.link) (L.story self.new.link)) }
        ensures ends_none { Growing (Each EndsNone) (L.story self.old.link) (L.story self.new.link) }
        ensures polls { OnOk result (Polls self.old.jobs self.old.turns self.old.log self.old.crew self.old.closing (L.story self.old.link) (L.story self.new.link)) }
        ensures came { OnOk result (Comes self.old.jobs self.old.log self.old.crew self.new.crew (L.story self.old.link) (L.story self.new.link)) }
        ensures begun { is_some self.new.closing ≡ is_some self.old.closing }
        ensures log { self.new.log ≡ self.old.log }
        ensures ended { StaysEnded self.old.fault result self.new.fault (self.new.link ≡ self.old.link) }
        ensures fault { IfErr result (λ fault. self.new.fault ≡ Some fault) }
    {
        if let Some(fault) = self.tunnel.fault() {
            return Err(fault);
        }
        let acted = self.act()?;
        let sought = self.seek()?;
        let polled = self.poll()?;
        Ok(pumped(acted, sought, polled))
    }

    /// Does what is due by the time. Tells whether it did something.
    pub(super) fn act(&mut self) -> Result<bool, HubFault>
        requires stands { self.old.fault ≡ None }
        ensures acted { OnOk result (HasActed self.new.known (L.story self.new.link)) }
        ensures since { Since L.story L.script L.faults self.old self.new }
        ensures heard { OnOk result (HearsSo None (L.story self.old.link) (L.story self.new.link)) }
        ensures few { OnErr result (HearsFew (L.story self.old.link) (L.story self.new.link)) }
        ensures does { IfOk result (λ did. AddsSo (Does is_late_now did) (L.story self.old.link) (L.story self.new.link)) }
        ensures sends { OnOk result (Growing SendsOnly (L.story self.old.link) (L.story self.new.link)) }
        ensures nothing { OnOk result (Growing AllNothing (L.story self.old.link) (L.story self.new.link)) }
        ensures still { OnOk result (WhereTold (λ places. (self.new.crew ≡ self.old.crew) × (self.new.closing ≡ self.old.closing)) (L.story self.old.link)) }
        ensures awaits { OnOk result (MayAwaitNow self.old.closing (L.story self.old.link) → MayAwaitNow self.new.closing (L.story self.new.link)) }
        ensures resumes { OnOk result (AddsSo (Resumes self.old.closing self.new.closing) (L.story self.old.link) (L.story self.new.link)) }
        ensures begun { is_some self.new.closing ≡ is_some self.old.closing }
        ensures fault { IfErr result (λ fault. self.new.fault ≡ Some fault) }
        ensures stands { OnOk result (self.new.fault ≡ None) }
        ensures alone { Growing (Each LeavesAlone) (L.story self.old.link) (L.story self.new.link) }
        ensures log { self.new.log ≡ self.old.log }
    {
        moments_go_on();
        let acted = self.tunnel.act()?;
        let _now = self.tunnel.now();
        self.tunnel.keeps();
        Ok(acted)
    }

    /// Asks for a channel. Tells whether it did.
    fn seek(&mut self) -> Result<bool, HubFault>
        requires stands { self.old.fault ≡ None }
        requires acted { HasActed self.old.known (L.story self.old.link) }
        ensures ready { OnOk result (self.new.closing ≡ None → Ready self.new.known (L.story self.new.link)) }
        ensures since { Since L.story L.script L.faults self.old self.new }
        ensures heard { OnOk result (HearsSo None (L.story self.old.link) (L.story self.new.link)) }
        ensures few { OnErr result (HearsFew (L.story self.old.link) (L.story self.new.link)) }
        ensures does { IfOk result (λ did. AddsSo (Does (is_left_now (is_some self.old.closing)) did) (L.story self.old.link) (L.story self.new.link)) }
        ensures acted { OnOk result (HasActed self.new.known (L.story self.new.link)) }
        ensures sends { OnOk result (Growing SendsOnly (L.story self.old.link) (L.story self.new.link)) }
        ensures nothing { OnOk result (Growing AllNothing (L.story self.old.link) (L.story self.new.link)) }
        ensures crew { self.new.crew ≡ self.old.crew }
        ensures closing { self.new.closing ≡ self.old.closing }
        ensures fault { IfErr result (λ fault. self.new.fault ≡ Some fault) }
        ensures stands { OnOk result (self.new.fault ≡ None) }
        ensures ends_none { Growing (Each EndsNone) (L.story self.old.link) (L.story self.new.link) }
        ensures begun { is_some self.new.closing ≡ is_some self.old.closing }
        ensures log { self.new.log ≡ self.old.log }
    {
        moments_go_on();
        if self.work.is_closing() {
            return Ok(false);
        }
        let sought = self.tunnel.seek();
        let _now = self.tunnel.now();
        sought
    }

    /// Makes one poll.
    pub(super) fn poll(&mut self) -> Result<Polled, HubFault>
        requires stands { self.old.fault ≡ None }
        requires acted { HasActed self.old.known (L.story self.old.link) }
        requires ready { self.old.closing ≡ None → Ready self.old.known (L.story self.old.link) }
        ensures since { Since L.story L.script L.faults self.old self.new }
        ensures heard { IfOk result (λ polled. HearsSo polled.heard (L.story self.old.link) (L.story self.new.link)) }
        ensures few { OnErr result (HearsFew (L.story self.old.link) (L.story self.new.link)) }
        ensures moves { IfOk result (λ polled. AddsSo (Moves polled.moved) (L.story self.old.link) (L.story self.new.link)) }
        ensures polls { OnOk result (Polls self.old.jobs self.old.turns self.old.log self.old.crew self.old.closing (L.story self.old.link) (L.story self.new.link)) }
        ensures came { OnOk result (Comes self.old.jobs self.old.log self.old.crew self.new.crew (L.story self.old.link) (L.story self.new.link)) }
        ensures resumes { OnOk result (AddsSo (Resumes self.old.closing self.new.closing) (L.story self.old.link) (L.story self.new.link)) }
        ensures waits { WaitsNow self.old.closing (L.story self.old.link) → OnOk result (Growing (WaitsOn self.old.closing) (L.story self.old.link) (L.story self.new.link)) }
        ensures done { OnOk result (AddsSo HasDone (L.story self.old.link) (L.story self.new.link)) }
        ensures fault { IfErr result (λ fault. self.new.fault ≡ Some fault) }
        ensures stands { OnOk result (self.new.fault ≡ None) }
        ensures alone { Growing (Each LeavesAlone) (L.story self.old.link) (L.story self.new.link) }
        ensures begun { is_some self.new.closing ≡ is_some self.old.closing }
        ensures log { self.new.log ≡ self.old.log }
    {
        moments_go_on();
        let now = self.tunnel.now();
        let has_place = self.tunnel.has_place();
        let longest_ms = self.work.wait_ms(now, has_place);
        let came = self.tunnel.poll(longest_ms)?;
        let now = self.tunnel.now();
        self.tunnel.keeps();
        let polled = take_in(&mut self.work, &came, now);
        match ending(&self.work, &mut self.met, &came.what, self.tunnel.taken()) {
            Some(fault) => Err(self.tunnel.fail(fault)),
            None => Ok(polled),
        }
    }
}

/// What a call did, by whether it did something before its poll, and by what the poll did.
fn pumped(acted: bool, sought: bool, polled: Polled) -> Pumped
    ensures heard { heard_of result ≡ polled.heard }
    ensures answers { AnswersSo (acted || sought) polled.moved result }
{
    match polled.heard {
        Some(indication) => Pumped::Heard(indication),
        None if acted || sought || polled.moved => Pumped::Moved,
        None => Pumped::Nothing,
    }
}
