//! A turn of the group thread.

ghost use Rattle.std.specs.Prelude.{◌≡◌, None};
ghost use Rattle.line_model.specs.Log.{IsNextTurn};
ghost use Rattle.shared_hub.specs.Items.{HasTold};
ghost use Rattle.shared_hub.specs.Sites.{items_of};
ghost use Rattle.shared_hub.specs.Steps.{GoesOn, Steps, step_of_group};

use super::{Site, Step};
use crate::relay::Relay;
use hub_core::GroupDid;
use line_model::{Link, Watcher};
use std::sync::Wait;

impl<L: Link, W: Watcher> Site<L, W> {
    /// A turn of the group thread: the next telegram's next step and, where it has to wait and no worker has something to do, a poll; nothing where all telegrams
    /// are told.
    pub fn tell<R: Wait>(&mut self, rt: &R, relay: &Relay) -> Step
        requires of { self.old.relay.value ≡ relay.now }
        ensures { Steps HasTold 0 (items_of self.old) (items_of self.new) result }
    {
        if self.hub.fault().is_some() {
            return Step::Failed;
        }
        let Some(k) = self.hub.next_group() else {
            return Step::Ready;
        };
        let came = self.send(k);
        self.or_polls(rt, relay, came)
    }

    /// The next step of the telegram `k`, which is the least that isn't told.
    fn send(&mut self, k: u32) -> Step
        requires stands { self.old.hub.fault ≡ None }
        requires next { IsNextTurn self.old.hub.turns self.old.hub.log k }
        ensures steps { Steps HasTold 0 (items_of self.old) (items_of self.new) result }
        ensures on { GoesOn result self.new.hub }
    {
        self.hub.keeps();
        let Ok(did) = self.hub.send_group(k) else {
            return Step::Failed;
        };
        let came = step_of(did);
        self.watching.tell_entry(&self.hub, came);
        came
    }
}

/// What a hub's answer is to the group thread.
fn step_of(did: GroupDid) -> Step
    ensures { result ≡ step_of_group did }
{
    match did {
        GroupDid::Wait => Step::Waits,
        GroupDid::Put => Step::Moved,
        GroupDid::Sent | GroupDid::Lost => Step::Told,
    }
}
