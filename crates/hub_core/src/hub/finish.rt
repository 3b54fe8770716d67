//! The closing.

ghost use Rattle.std.specs.Prelude.{◌≡◌, ◌≢◌, ◌≤◌, List, IfErr, IfOk, OnOk, Some, None, OnErr};
ghost use Rattle.line_model.specs.Log.{Job, AllOver, TurnUnfinished};
ghost use Rattle.tunnel_link.specs.Adds.{AllNothing, Growing, HasActed};
ghost use Rattle.tunnel_link.specs.Rights.{WhereTold};
ghost use Rattle.hub_work.specs.Books.{AreJobsOf};
ghost use Rattle.hub_work.specs.Closes.{Begins};
ghost use Rattle.line_model.specs.LinkStory.{newest_time};
ghost use Rattle.line_model.specs.Record.{entries};
ghost use Rattle.hub_core.specs.Came.{Comes};
ghost use Rattle.hub_core.specs.Closes.{AsksNow, Closes, EndsAs, FinishesSo, GoesSo, MayAwaitNow, OverExactly, Resumes, WaitsNow};
ghost use Rattle.hub_core.specs.Leaving.{ClosesOn, WaitsOn};
ghost use Rattle.hub_core.specs.Hears.{HearsFew, HearsSo, heard_at_end};
ghost use Rattle.hub_core.specs.Keeps.{IsAllDone};
ghost use Rattle.hub_core.specs.Polls.{Polls, PollsInClosing, SendsOnly};
ghost use Rattle.hub_core.specs.Pumps.{AddsSo};
ghost use Rattle.hub_core.specs.Seen.{SameRun, StaysEnded};
ghost use Rattle.hub_core.specs.Since.{Since};

use super::Hub;
use crate::answers::Finished;
use hub_work::{Closing, moments_go_on};
use line_model::{HubFault, Indication, Link};

impl<L: Link> Hub<L> {
    /// One step of the closing: it listens, then asks to end the channel, then waits for the answer. No job and no group telegram is unfinished.
    pub fn finish(&mut self) -> Result<Finished, HubFault>
        requires over { (jobs : List Job) → AreJobsOf self.old.devices jobs → AllOver jobs self.old.log }
        requires told { ¬ TurnUnfinished self.old.turns self.old.log }
        ensures since { Since L.story L.script L.faults self.old self.new }
        ensures stands { OnOk result (self.new.fault ≡ None) }
        ensures heard { IfOk result (λ done. HearsSo (heard_at_end done) (L.story self.old.link) (L.story self.new.link)) }
        ensures few { OnErr result (HearsFew (L.story self.old.link) (L.story self.new.link)) }
        ensures closes { OnOk result (AddsSo (Closes self.old.closing self.new.closing) (L.story self.old.link) (L.story self.new.link)) }
        ensures ends { IfOk result (λ done. EndsAs done self.new.closing (L.story self.new.link)) }
        ensures goes { IfOk result (λ done. GoesSo done (L.story self.old.link) (L.story self.new.link)) }
        ensures rightly { Growing (ClosesOn self.old.closing) (L.story self.old.link) (L.story self.new.link) }
        ensures waits { OnOk result (Growing (WaitsOn self.old.closing) (L.story self.old.link) (L.story self.new.link)) }
        ensures polls { OnOk result (PollsInClosing self.old.jobs self.old.turns self.old.log self.old.crew self.old.closing (L.story self.old.link) (L.story self.new.link)) }
        ensures came { OnOk result (Comes self.old.jobs self.old.log self.old.crew self.new.crew (L.story self.old.link) (L.story self.new.link)) }
        ensures log { self.new.log ≡ self.old.log }
        ensures ended { StaysEnded self.old.fault result self.new.fault (self.new.link ≡ self.old.link) }
        ensures fault { IfErr result (λ fault. self.new.fault ≡ Some fault) }
    {
        if let Some(fault) = self.tunnel.fault() {
            return Err(fault);
        }
        if self.is_over() {
            return Ok(Finished::Over);
        }
        self.act()?;
        self.goes_on()
    }

    /// Asks to end the channel once the listening is over, and else makes one poll.
    fn goes_on(&mut self) -> Result<Finished, HubFault>
        requires stands { self.old.fault ≡ None }
        requires acted { HasActed self.old.known (L.story self.old.link) }
        requires over { IsAllDone self.old.devices self.old.turns self.old.log }
        requires awaits { MayAwaitNow self.old.closing (L.story self.old.link) }
        ensures since { Since L.story L.script L.faults self.old self.new }
        ensures heard { IfOk result (λ done. HearsSo (heard_at_end done) (L.story self.old.link) (L.story self.new.link)) }
        ensures few { OnErr result (HearsFew (L.story self.old.link) (L.story self.new.link)) }
        ensures closes { OnOk result (AddsSo (Closes self.old.closing self.new.closing) (L.story self.old.link) (L.story self.new.link)) }
        ensures ends { IfOk result (λ done. EndsAs done self.new.closing (L.story self.new.link)) }
        ensures goes { IfOk result (λ done. GoesSo done (L.story self.old.link) (L.story self.new.link)) }
        ensures polls { OnOk result (PollsInClosing self.old.jobs self.old.turns self.old.log self.old.crew self.old.closing (L.story self.old.link) (L.story self.new.link)) }
        ensures came { OnOk result (Comes self.old.jobs self.old.log self.old.crew self.new.crew (L.story self.old.link) (L.story self.new.link)) }
        ensures fault { IfErr result (λ fault. self.new.fault ≡ Some fault) }
        ensures stands { OnOk result (self.new.fault ≡ None) }
        ensures rightly { Growing (ClosesOn self.old.closing) (L.story self.old.link) (L.story self.new.link) }
        ensures waits { OnOk result (Growing (WaitsOn self.old.closing) (L.story self.old.link) (L.story self.new.link)) }
        ensures log { self.new.log ≡ self.old.log }
    {
        let now = self.tunnel.now();
        if self.closing().asks(now) {
            self.leave()
        } else {
            self.listen()
        }
    }

    /// Asks to end the channel.
    fn leave(&mut self) -> Result<Finished, HubFault>
        requires stands { self.old.fault ≡ None }
        requires begun { self.old.closing ≢ None }
        requires waited { AsksNow self.old.closing (L.story self.old.link) }
        requires over { IsAllDone self.old.devices self.old.turns self.old.log }
        ensures since { Since L.story L.script L.faults self.old self.new }
        ensures heard { IfOk result (λ done. HearsSo (heard_at_end done) (L.story self.old.link) (L.story self.new.link)) }
        ensures few { OnErr result (HearsFew (L.story self.old.link) (L.story self.new.link)) }
        ensures resumes { OnOk result (AddsSo (Resumes self.old.closing self.new.closing) (L.story self.old.link) (L.story self.new.link)) }
        ensures ends { IfOk result (λ done. EndsAs done self.new.closing (L.story self.new.link)) }
        ensures goes { IfOk result (λ done. GoesSo done (L.story self.old.link) (L.story self.new.link)) }
        ensures sends { OnOk result (Growing SendsOnly (L.story self.old.link) (L.story self.new.link)) }
        ensures nothing { OnOk result (Growing AllNothing (L.story self.old.link) (L.story self.new.link)) }
        ensures crew { self.new.crew ≡ self.old.crew }
        ensures fault { IfErr result (λ fault. self.new.fault ≡ Some fault) }
        ensures stands { OnOk result (self.new.fault ≡ None) }
        ensures rightly { Growing (ClosesOn self.old.closing) (L.story self.old.link) (L.story self.new.link) }
        ensures log { self.new.log ≡ self.old.log }
    {
        moments_go_on();
        let asked = self.tunnel.leave()?;
        let now = self.tunnel.now();
        self.tunnel.keeps();
        if !asked {
            return Ok(Finished::Over);
        }
        self.work.asked_to_leave(now);
        let is_over = self.is_over();
        Ok(finished(None, is_over))
    }

    /// Makes one poll.
    fn listen(&mut self) -> Result<Finished, HubFault>
        requires stands { self.old.fault ≡ None }
        requires begun { self.old.closing ≢ None }
        requires acted { HasActed self.old.known (L.story self.old.link) }
        requires over { IsAllDone self.old.devices self.old.turns self.old.log }
        requires waits { WaitsNow self.old.closing (L.story self.old.link) }
        ensures since { Since L.story L.script L.faults self.old self.new }
        ensures heard { IfOk result (λ done. HearsSo (heard_at_end done) (L.story self.old.link) (L.story self.new.link)) }
        ensures few { OnErr result (HearsFew (L.story self.old.link) (L.story self.new.link)) }
        ensures resumes { OnOk result (AddsSo (Resumes self.old.closing self.new.closing) (L.story self.old.link) (L.story self.new.link)) }
        ensures ends { IfOk result (λ done. EndsAs done self.new.closing (L.story self.new.link)) }
        ensures goes { IfOk result (λ done. GoesSo done (L.story self.old.link) (L.story self.new.link)) }
        ensures polls { OnOk result (Polls self.old.jobs self.old.turns self.old.log self.old.crew self.old.closing (L.story self.old.link) (L.story self.new.link)) }
        ensures came { OnOk result (Comes self.old.jobs self.old.log self.old.crew self.new.crew (L.story self.old.link) (L.story self.new.link)) }
        ensures fault { IfErr result (λ fault. self.new.fault ≡ Some fault) }
        ensures stands { OnOk result (self.new.fault ≡ None) }
        ensures rightly { Growing (ClosesOn self.old.closing) (L.story self.old.link) (L.story self.new.link) }
        ensures waits { OnOk result (Growing (WaitsOn self.old.closing) (L.story self.old.link) (L.story self.new.link)) }
        ensures log { self.new.log ≡ self.old.log }
    {
        let polled = self.poll()?;
        let is_over = self.is_over();
        Ok(finished(polled.heard, is_over))
    }

    /// How far the closing is, which begins with the first call.
    fn closing(&mut self) -> Closing
        requires stands { self.old.fault ≡ None }
        requires over { IsAllDone self.old.devices self.old.turns self.old.log }
        ensures is { self.new.closing ≡ Some result }
        ensures begins { WhereTold (λ places. Begins (newest_time (entries places)) self.old.closing self.new.closing) (L.story self.old.link) }
        ensures stays { self.old.closing ≢ None → self.new.closing ≡ self.old.closing }
        ensures begun { self.new.closing ≢ None }
        ensures link { self.new.link ≡ self.old.link }
        ensures known { self.new.known ≡ self.old.known }
        ensures crew { self.new.crew ≡ self.old.crew }
        ensures run { SameRun self.old self.new }
        ensures log { self.new.log ≡ self.old.log }
        ensures stands { self.new.fault ≡ None }
    {
        let now = self.tunnel.now();
        self.work.closing_at(now)
    }

    /// Whether the closing is over.
    fn is_over(&mut self) -> bool
        requires stands { self.old.fault ≡ None }
        requires over { IsAllDone self.old.devices self.old.turns self.old.log }
        ensures over { OverExactly result self.new.closing (L.story self.new.link) }
        ensures begins { WhereTold (λ places. Begins (newest_time (entries places)) self.old.closing self.new.closing) (L.story self.old.link) }
        ensures stays { self.old.closing ≢ None → self.new.closing ≡ self.old.closing }
        ensures link { self.new.link ≡ self.old.link }
        ensures known { self.new.known ≡ self.old.known }
        ensures crew { self.new.crew ≡ self.old.crew }
        ensures run { SameRun self.old self.new }
        ensures log { self.new.log ≡ self.old.log }
        ensures stands { self.new.fault ≡ None }
    {
        let now = self.tunnel.now();
        let is_open = self.tunnel.is_open();
        self.closing().is_over(is_open, now)
    }
}

/// What a poll of the closing comes to.
fn finished(heard: Option<Indication>, is_over: bool) -> Finished
    ensures heard { heard_at_end result ≡ heard }
    ensures over { FinishesSo is_over result }
{
    match heard {
        Some(indication) => Finished::Heard(indication),
        None if is_over => Finished::Over,
        None => Finished::Going,
    }
}
