//! Who listens.

ghost use Rattle.std.specs.Prelude.{◌≡◌, [], IfOk};
ghost use Rattle.shared_hub.specs.Relays.{KeepsFirst, MissesAll, SameButMissed};

use crate::heard::Heard;
use crate::relay::Relay;
use hub_core::Hub;
use knx_model::NoMemory;
use line_model::Link;
use std::alloc::Global;
use std::marker::Model;
use std::sync::Wait;
use telegram_router::{Ear, Feed};

/// The ear at a relay, and all that it has heard.
#[derive(Drop)]
pub struct Listener {
    ear: Ear,
    heard: Heard,
}

impl Model for Listener {
    ghost use Rattle.std.specs.Prelude.{◌≡◌};
    ghost use Rattle.telegram_router.specs.Ends.{Hearing};

    ghost Value = { Hearing };

    ghost view = { λ listener. listener.ear };

    ghost invariant = { λ listener. listener.heard ≡ listener.ear.got };
}

/// Counts all that is left in the queue as missed.
fn miss_all<R: Wait, L: Link>(rt: &R, relay: &Relay, ear: &mut Ear, hub: &mut Hub<L>)
    requires of { ear.old.router ≡ relay.now }
    ensures missed { MissesAll ear.old ear.new hub.old.missed hub.new.missed }
    ensures hub { SameButMissed hub.old hub.new }
{
    for _ in rt.forever() {
        let Some(_) = relay.router.pop(rt, ear) else {
            return;
        };
        hub.missed();
    }
    unreachable!()
}

impl Listener {
    /// It has heard nothing yet. It takes memory for the first 4,096.
    pub fn new(alloc: Global, ear: Ear) -> Result<Listener, NoMemory>
        requires new { ear.got ≡ [] }
        ensures ear { IfOk result (λ listener. listener ≡ ear) }
    {
        let heard = Heard::new(alloc)?;
        Ok(Listener { ear, heard })
    }

    /// Takes out of the queue what waits, and keeps it, as long as there is memory.
    pub fn collect<R: Wait>(&mut self, rt: &R, relay: &Relay)
        requires of { self.old.router ≡ relay.now }
        ensures of { self.new.router ≡ self.old.router }
    {
        self.heard.collect(rt, relay, &mut self.ear);
    }

    /// All that was heard, now that nothing more is put into the queue. What there is no memory for is counted as missed.
    pub fn close<R: Wait, L: Link>(
        self,
        rt: &R,
        relay: &Relay,
        feed: Feed,
        hub: &mut Hub<L>,
    ) -> Heard
        requires of { self.router ≡ relay.now }
        requires feed_of { feed.router ≡ relay.now }
        ensures heard { KeepsFirst result feed.put hub.old.missed hub.new.missed }
        ensures hub { SameButMissed hub.old hub.new }
    {
        let Listener { mut ear, mut heard } = self;
        relay.router.join(&mut ear, feed);
        heard.collect(rt, relay, &mut ear);
        miss_all(rt, relay, &mut ear, hub);
        heard
    }
}
