//! The events of a run.

ghost use Rattle.std.specs.Prelude.{◌≡◌, ◌+◌, ◌^◌, ◌<◌, ◌≤◌, [], ◌∷◌, ◌++◌, length, OnOk, vec_len, vec_capacity};
ghost use Rattle.bus_sim.specs.Kept.{event_of};

use crate::happened::Happened;
use crate::noted::Noted;
use knx_model::NoMemory;
use std::alloc::Global;
use std::marker::Model;

/// The events of a run, the oldest first. Contracts see the newest first. What is noted has no octet: so they are counted, and however many there
/// are, they take no memory.
#[derive(Drop)]
pub struct Events {
    items: Vec<Noted>,
}

impl Model for Events {
    ghost use Rattle.std.specs.Prelude.{◌-◌, reverse, vec_len, vec_capacity};
    ghost use Rattle.bus_sim.specs.Noted.{EventsNow, noted};

    ghost Value = { EventsNow };

    ghost view = { λ e. record { list = reverse (noted e.items.items); room = vec_capacity e.items - vec_len e.items } };
}

impl Events {
    /// No events.
    pub fn new(alloc: Global) -> Events
        ensures { result.list ≡ [] }
    {
        Events {
            items: Vec::new(alloc),
        }
    }

    /// Takes room for so many more events. A vector has fewer than 2^63 places.
    pub fn reserve(&mut self, more: usize) -> Result<(), NoMemory>
        ensures list { self.new.list ≡ self.old.list }
        ensures room { OnOk result (more ≤ self.new.room) }
        ensures few { OnOk result (length self.old.list + more < 2 ^ 63) }
    {
        self.items.reserve(more)?;
        Ok(())
    }

    /// An event happened. There is room for it.
    pub fn push(&mut self, event: &Happened<'_>)
        requires { 1 ≤ self.old.room }
        ensures list { self.new.list ≡ event_of event.now ∷ self.old.list }
        ensures room { self.old.room ≤ self.new.room + 1 }
    {
        push_within(&mut self.items, Noted::of(event));
    }

    /// How many there are.
    pub fn len(&self) -> u64
        ensures { result ≡ length self.now.list }
    {
        count(&self.items)
    }
}

/// How many there are.
fn count(items: &Vec<Noted>) -> u64
    ensures { result ≡ length items.now.items }
{
    items.len() as u64
}

/// Puts an event behind the others. There is room for it.
fn push_within(items: &mut Vec<Noted>, event: Noted)
    requires { vec_len items.old < vec_capacity items.old }
    ensures items { items.new.items ≡ items.old.items ++ event ∷ [] }
    ensures len { vec_len items.new ≤ vec_len items.old + 1 }
    ensures capacity { vec_capacity items.old ≤ vec_capacity items.new }
{
    let _ = items.push(event);
}
