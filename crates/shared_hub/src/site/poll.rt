//! A poll, in whosever turn.

ghost use Rattle.std.specs.Prelude.{◌≡◌};
ghost use Rattle.shared_hub.specs.Sites.{items_of};
ghost use Rattle.shared_hub.specs.Steps.{GoesOn, IsOn, OrPolls, Polls};

use super::{Site, Step};
use crate::relay::Relay;
use hub_core::Pumped;
use line_model::{Link, Watcher};
use std::sync::Wait;

impl<L: Link, W: Watcher> Site<L, W> {
    /// What a call of the hub came to and, where it could do nothing and no worker has something to do, a poll.
    pub(super) fn or_polls<R: Wait>(&mut self, rt: &R, relay: &Relay, came: Step) -> Step
        requires on { GoesOn came self.old.hub }
        requires of { self.old.relay.value ≡ relay.now }
        ensures polls { OrPolls came (items_of self.old) (items_of self.new) result }
        ensures on { GoesOn result self.new.hub }
    {
        match came {
            Step::Waits if !self.hub.is_busy() => self.poll(rt, relay),
            came => came,
        }
    }

    /// One poll, while something is left. What was heard goes into the relay. Where it brought nothing, nothing can be done before something comes.
    fn poll<R: Wait>(&mut self, rt: &R, relay: &Relay) -> Step
        requires on { IsOn self.old.hub }
        requires of { self.old.relay.value ≡ relay.now }
        ensures polls { Polls (items_of self.old) (items_of self.new) result }
        ensures on { GoesOn result self.new.hub }
    {
        let Ok(pumped) = self.hub.pump() else {
            return Step::Failed;
        };
        match pumped {
            Pumped::Nothing => Step::Waits,
            Pumped::Moved => Step::Moved,
            Pumped::Heard(indication) => {
                relay.hear(rt, &mut self.feed, &mut self.hub, indication);
                Step::Moved
            }
        }
    }
}
