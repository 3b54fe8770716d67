//! What was heard in a run, as it is kept.

ghost use Rattle.std.specs.Prelude.{◌≡◌, ◌⊎◌, ◌≤◌, [], IfOk, false, length};
ghost use Rattle.shared_hub.specs.Relays.{KeepsOrMisses, SameButMissed};
ghost use Rattle.telegram_router.specs.Ends.{HasHeardAll};

use crate::relay::Relay;
use hub_core::{Hub, Indication};
use knx_model::{List, NoMemory};
use line_model::Link;
use std::alloc::Global;
use std::marker::Model;
use std::sync::Wait;
use telegram_router::Ear;

/// For so many there is memory from the beginning.
const ROOM: usize = 4096;

/// Group telegrams, the oldest first. Beyond the first 4,096 it takes memory for more.
#[derive(Drop)]
pub struct Heard {
    items: Vec<Indication>,
}

impl Model for Heard {
    ghost use Rattle.std.specs.Prelude.{◌≤◌, List as Seq, vec_capacity};
    ghost use Rattle.line_model.specs.declared.group.Indication.{Indication as Telegram};

    ghost Value = { Seq Telegram };

    ghost view = { λ heard. heard.items.items };

    ghost invariant = { λ heard. 4096 ≤ vec_capacity heard.items };
}

impl Heard {
    /// None yet.
    pub fn new(alloc: Global) -> Result<Heard, NoMemory>
        ensures { IfOk result (λ heard. heard ≡ []) }
    {
        let items = Vec::with_capacity(alloc, ROOM)?;
        Ok(Heard { items })
    }

    /// Keeps all that waits, or as many as there is memory for: one is taken out of the queue only where it can be kept.
    pub fn collect<R: Wait>(&mut self, rt: &R, relay: &Relay, ear: &mut Ear)
        requires of { ear.old.router ≡ relay.now }
        requires all { self.old ≡ ear.old.got }
        ensures of { ear.new.router ≡ ear.old.router }
        ensures pushed { ear.new.pushed ≡ ear.old.pushed }
        ensures all { self.new ≡ ear.new.got }
        ensures stops { HasHeardAll ear.new ⊎ (4096 ≤ length self.new) }
    {
        for _ in rt.forever() {
            if !self.keep_next(rt, relay, ear) {
                return;
            }
        }
        unreachable!()
    }

    /// Keeps the next that waits, where there is memory for it. Tells whether it kept one.
    fn keep_next<R: Wait>(&mut self, rt: &R, relay: &Relay, ear: &mut Ear) -> bool
        requires of { ear.old.router ≡ relay.now }
        requires all { self.old ≡ ear.old.got }
        ensures of { ear.new.router ≡ ear.old.router }
        ensures pushed { ear.new.pushed ≡ ear.old.pushed }
        ensures all { self.new ≡ ear.new.got }
        ensures stops { result ≡ false → HasHeardAll ear.new ⊎ (4096 ≤ length self.new) }
    {
        let Ok(()) = self.items.reserve(1) else {
            return false;
        };
        match relay.router.pop(rt, ear) {
            Some(heard) => {
                self.items.push_reserved(heard);
                true
            }
            None => false,
        }
    }

    /// Keeps one more. Where there is no memory for it, it is counted as missed.
    pub fn keep<L: Link>(&mut self, hub: &mut Hub<L>, heard: Indication)
        ensures heard { KeepsOrMisses heard self.old self.new hub.old.missed hub.new.missed }
        ensures hub { SameButMissed hub.old hub.new }
    {
        if self.items.push(heard).is_err() {
            hub.missed();
        }
    }

    /// All of them, as a list.
    pub fn into_list(self) -> List<Indication>
        ensures { result ≡ self }
    {
        let Heard { items } = self;
        List::from_vec(items)
    }
}
