//! The way of what is heard from who has the turn to who listens.

ghost use Rattle.std.specs.Prelude.{◌≡◌, IfOk};
ghost use Rattle.shared_hub.specs.Relays.{KeepsOrMisses, SameButMissed};
ghost use Rattle.telegram_router.specs.Ends.{first_ear, first_feed};

use hub_core::{Hub, Indication};
use knx_model::NoMemory;
use line_model::Link;
use std::alloc::Global;
use std::marker::Model;
use std::sync::Wait;
use std::sync::atomic::{AtomicBool, Ordering};
use std::thread::Parker;
use telegram_router::{Ear, Feed, Router};

/// A queue of what was heard, and a bell for who listens. It rings where something was put into the queue, and once no worker is left.
#[derive(Drop)]
pub struct Relay {
    pub(crate) router: Router,
    bell: Parker,
    is_last_ring: AtomicBool,
}

impl Model for Relay {
    ghost use Rattle.std.specs.Prelude.{◌≡◌};
    ghost use Rattle.atomic_table.specs.Seated.{TableId, table_id_coded};

    ghost Value = { TableId };

    ghost coded = { table_id_coded };

    ghost view = { λ relay. relay.router };
}

impl Relay {
    /// An empty queue and its two ends. It takes all memory that its calls need.
    pub fn new(alloc: Global) -> Result<(Relay, Feed, Ear), NoMemory>
        ensures feed { IfOk result (λ made. made.1 ≡ first_feed made.0) }
        ensures ear { IfOk result (λ made. made.2 ≡ first_ear made.0) }
    {
        let (router, feed, ear) = Router::new(alloc)?;
        let relay = Relay {
            router,
            bell: Parker::new(),
            is_last_ring: AtomicBool::new(false),
        };
        Ok((relay, feed, ear))
    }

    /// Puts what was heard into the queue, and rings. Where 4,096 wait it is counted as missed.
    pub fn hear<R: Wait, L: Link>(
        &self,
        rt: &R,
        feed: &mut Feed,
        hub: &mut Hub<L>,
        heard: Indication,
    )
        requires of { feed.old.router ≡ self.now }
        ensures of { feed.new.router ≡ feed.old.router }
        ensures heard { KeepsOrMisses heard feed.old.put feed.new.put hub.old.missed hub.new.missed }
        ensures hub { SameButMissed hub.old hub.new }
    {
        match self.router.push(rt, feed, heard) {
            Ok(()) => self.bell.unpark(),
            Err(_full) => hub.missed(),
        }
    }

    /// Rings the last time, when no worker is left.
    pub(crate) fn ring_last(&self) {
        self.is_last_ring.store(true, Ordering::SeqCst);
        self.bell.unpark();
    }

    /// Whether it has rung the last time.
    pub(crate) fn has_rung_last(&self) -> bool {
        self.is_last_ring.load(Ordering::SeqCst)
    }

    /// Sleeps until it rings, or not at all where it has rung since the last sleep.
    pub(crate) fn sleep<R: Wait>(&self, rt: &R) {
        self.bell.park(rt);
    }
}
