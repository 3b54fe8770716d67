//! A worker's turn.

ghost use Rattle.std.specs.Prelude.{◌≡◌, ◌≤◌, length};
ghost use Rattle.shared_hub.specs.Items.{HasFinished};
ghost use Rattle.shared_hub.specs.Sites.{items_of};
ghost use Rattle.shared_hub.specs.Steps.{GoesOn, IsOn, Steps, step_of};

use super::{Site, Step};
use crate::relay::Relay;
use hub_core::Turned;
use line_model::{Link, Watcher};
use std::sync::Wait;

/// So many calls of the hub one turn makes at most, so that each who waits for a turn gets it soon.
const CALLS: u32 = 64;

impl<L: Link, W: Watcher> Site<L, W> {
    /// A worker's turn, from 1: he goes on as long as each call of the hub does something and no job is taken or ends, at most for so many calls; none is made
    /// where all is over.
    pub fn step<R: Wait>(&mut self, rt: &R, relay: &Relay, worker: u8) -> Step
        requires from_1 { 1 ≤ worker }
        requires within { worker ≤ length self.old.opening.value.crew }
        requires of { self.old.relay.value ≡ relay.now }
        ensures { Steps (HasFinished worker) worker (items_of self.old) (items_of self.new) result }
    {
        if self.hub.fault().is_some() {
            return Step::Failed;
        }
        self.hub.keeps();
        if !self.hub.has_work_left() {
            return Step::Ready;
        }
        for _ in 0..CALLS {
            let came = self.call(rt, relay, worker);
            let Step::Moved = came else {
                return came;
            };
        }
        Step::Moved
    }

    /// A worker's next step, while something is left; where he has to wait and no other has something to do, a poll.
    fn call<R: Wait>(&mut self, rt: &R, relay: &Relay, worker: u8) -> Step
        requires from_1 { 1 ≤ worker }
        requires within { worker ≤ length self.old.opening.value.crew }
        requires of { self.old.relay.value ≡ relay.now }
        requires on { IsOn self.old.hub }
        ensures steps { Steps (HasFinished worker) worker (items_of self.old) (items_of self.new) result }
        ensures on { GoesOn result self.new.hub }
    {
        let came = self.work(worker);
        self.or_polls(rt, relay, came)
    }

    /// A worker's next step, while something is left.
    fn work(&mut self, worker: u8) -> Step
        requires from_1 { 1 ≤ worker }
        requires within { worker ≤ length self.old.opening.value.crew }
        requires on { IsOn self.old.hub }
        ensures steps { Steps (HasFinished worker) worker (items_of self.old) (items_of self.new) result }
        ensures on { GoesOn result self.new.hub }
    {
        self.hub.keeps();
        let Ok(turned) = self.hub.turn(worker) else {
            return Step::Failed;
        };
        let came = step_of(turned);
        self.watching.tell_entry(&self.hub, came);
        self.watching.tell_progress(&self.hub, worker);
        came
    }
}

/// What a hub's answer is to its worker.
fn step_of(turned: Turned) -> Step
    ensures { result ≡ step_of turned }
{
    match turned {
        Turned::Took(job) => Step::Took(job),
        Turned::Done(_) | Turned::Failed(_) | Turned::Refused(_) => Step::Told,
        Turned::Moved => Step::Moved,
        Turned::Wait | Turned::Later => Step::Waits,
        Turned::NoMore => Step::Ready,
    }
}
