//! A worker's turn.

ghost use Rattle.std.specs.Prelude.{◌≡◌, ◌≢◌, ◌≤◌, ◌-◌, List, length, IfErr, IfOk, OnErr, OnOk, Some, None};
ghost use Rattle.line_model.specs.Log.{Job};
ghost use Rattle.hub_work.specs.Books.{AreJobsOf, held_at};
ghost use Rattle.hub_work.specs.Came.{TakesOneIn, waiting_at};
ghost use Rattle.hub_work.specs.Turns.{HasFinished, Suits, TurnTells, WhyFreeByLog};
ghost use Rattle.tunnel_link.specs.Adds.{Growing};
ghost use Rattle.tunnel_link.specs.Alone.{Each, LeavesAlone};
ghost use Rattle.hub_work.specs.declared.answers.Turned.TheVariants as answer;
ghost use Rattle.hub_core.specs.Hears.{HearsFew, HearsSo};
ghost use Rattle.hub_core.specs.Polls.{TellsBusy};
ghost use Rattle.hub_core.specs.Puts.{PutsRequest};
ghost use Rattle.hub_core.specs.Waits.{TurnWaitsExactly};
ghost use Rattle.hub_core.specs.Seen.{StaysEnded};
ghost use Rattle.hub_core.specs.Since.{Since};

use super::Hub;
use hub_work::{Turn, Turned, places_are_free};
use line_model::{HubFault, Link};

impl<L: Link> Hub<L> {
    /// One step of a worker, from 1 up to the number that `begin` was given: it takes the first job that is free, takes in what came for its job, sends what
    /// its job sends next, or tells its job's end.
    pub fn turn(&mut self, worker: u8) -> Result<Turned, HubFault>
        requires worker { 1 ≤ worker }
        requires within { worker ≤ length self.old.crew }
        ensures since { Since L.story L.script L.faults self.old self.new }
        ensures stands { OnOk result (self.new.fault ≡ None) }
        ensures heard { OnOk result (HearsSo None (L.story self.old.link) (L.story self.new.link)) }
        ensures few { OnErr result (HearsFew (L.story self.old.link) (L.story self.new.link)) }
        ensures told { IfOk result (λ turned. TurnTells (L.place self.old.link) worker turned self.old.log self.new.log) }
        ensures waits { IfOk result (λ turned. TurnWaitsExactly self.old.jobs self.old.turns self.old.log self.old.crew (L.place self.old.link) worker turned (L.story self.old.link)) }
        ensures suits { IfOk result (Suits (held_at self.old.crew (worker - 1))) }
        ensures free { IfOk result (WhyFreeByLog self.old.devices self.old.log) }
        // once it is told that there are no more it has finished
        ensures finished { IfOk result (λ turned. turned ≡ answer.NoMore → (jobs : List Job) → AreJobsOf self.new.devices jobs → HasFinished worker jobs self.new.log) }
        ensures came { OnOk result (TakesOneIn worker self.old.crew self.new.crew) }
        // where something came for its job, it takes one thing in, and sends nothing; else it moves only where it sends a request
        ensures takes_in { IfOk result (λ turned. 1 ≤ waiting_at self.old.crew (worker - 1) → (turned ≡ answer.Moved) × (self.new.link ≡ self.old.link)) }
        ensures puts { IfOk result (λ turned. turned ≡ answer.Moved → waiting_at self.old.crew (worker - 1) ≡ 0 → PutsRequest (L.story self.old.link) (L.story self.new.link)) }
        ensures untold { OnErr result (self.new.log ≡ self.old.log) }
        ensures alone { Growing (Each LeavesAlone) (L.story self.old.link) (L.story self.new.link) }
        ensures still { IfOk result (λ turned. turned ≢ answer.Moved → self.new.link ≡ self.old.link) }
        ensures closing { self.new.closing ≡ self.old.closing }
        ensures ended { StaysEnded self.old.fault result self.new.fault (self.new.link ≡ self.old.link) }
        ensures fault { IfErr result (λ fault. self.new.fault ≡ Some fault) }
    {
        if let Some(fault) = self.tunnel.fault() {
            return Err(fault);
        }
        let now = self.tunnel.now();
        let at = self.tunnel.at();
        let has_place = self.tunnel.has_place();
        self.tunnel.keeps();
        places_are_free();
        match self.work.turn(worker, now, at, has_place) {
            Turn::Did(turned) => Ok(turned),
            Turn::Puts(cemi) => {
                self.tunnel.put(&cemi)?;
                Ok(Turned::Moved)
            }
        }
    }

    /// Whether a worker has something to do: something came for his job that he hasn't taken in, or his job, which has begun, sends or ends next.
    pub fn is_busy(&self) -> bool
        ensures { self.now.fault ≡ None → TellsBusy self.now.jobs self.now.turns self.now.log self.now.crew result (L.story self.now.link) }
    {
        let now = self.tunnel.now();
        let has_place = self.tunnel.has_place();
        self.work.is_busy(now, has_place)
    }
}
