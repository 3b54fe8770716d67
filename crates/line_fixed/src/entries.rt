//! The record of a link, each entry with its time. Equal entries in a row are kept as one entry and a number.

ghost use Rattle.std.specs.Prelude.{◌≡◌, ◌<◌, ◌+◌, ◌-◌, ◌⊎◌, [], ◌∷◌, IfNone, IfSome, length, slice_get};
ghost use Rattle.std.specs.Bool.{OnTrue};
ghost use Rattle.std.specs.Option.{IsSomeAnd};
ghost use Rattle.knx_model.specs.Outside.{greatest_count};
ghost use Rattle.line_model.specs.LinkStory.{newest_time};
ghost use Rattle.line_model.specs.Record.{entry};
ghost use Rattle.line_fixed.specs.Entries.{entry_of, told, whole};
ghost use Rattle.line_fixed.specs.Fixed.{with_entry};

use crate::item::{Item, Stretch};
use knx_model::NoMemory;
use std::alloc::Global;
use std::marker::Model;

/// The entries of a link's record; contracts see the whole list, the newest first.
#[derive(Drop)]
pub struct Entries {
    /// The oldest first.
    stretches: Vec<Stretch>,
    len: u64,
}

impl Model for Entries {
    ghost use Rattle.std.specs.Prelude.{◌≡◌, List, length};
    ghost use Rattle.line_model.specs.Record.{Entry};
    ghost use Rattle.line_fixed.specs.Entries.{whole};

    ghost Value = { List Entry };

    ghost view = { λ e. whole e.stretches.items };

    ghost invariant = { λ e. e.len ≡ length (whole e.stretches.items) };
}

/// Whether an entry is the same as the newest ones.
fn repeats(stretches: &[Stretch], what: &Item, now: u64) -> bool
    ensures { OnTrue result (IsSomeAnd (slice_get stretches.now (length stretches.now - 1)) (λ newest. entry_of newest ≡ entry (told what.now) now)) }
{
    match stretches.last() {
        Some(newest) => newest.now == now && newest.what.is_same(what),
        None => false,
    }
}

/// Counts one more of the newest entries.
fn lengthen(stretches: &mut Vec<Stretch>)
    requires { length (whole stretches.old.items) < greatest_count }
    ensures { IfSome (slice_get stretches.old.items (length stretches.old.items - 1)) (λ newest. whole stretches.new.items ≡ entry_of newest ∷ whole stretches.old.items) }
{
    if let Some(newest) = stretches.last_mut() {
        newest.more += 1;
    }
}

/// Adds an entry. At `Err` nothing has changed.
fn grow(stretches: &mut Vec<Stretch>, what: Item, now: u64) -> Result<(), NoMemory>
    requires { length (whole stretches.old.items) < greatest_count }
    ensures { whole stretches.new.items ≡ with_entry result (entry (told what) now) (whole stretches.old.items) }
{
    if repeats(stretches.as_slice(), &what, now) {
        lengthen(stretches);
        return Ok(());
    }
    stretches.push(Stretch { what, now, more: 0 })?;
    Ok(())
}

impl Entries {
    /// No entries. It takes no memory.
    pub fn new(alloc: Global) -> Entries
        ensures { result ≡ [] }
    {
        Entries {
            stretches: Vec::new(alloc),
            len: 0,
        }
    }

    /// Each stretch of equal entries, the oldest first.
    pub fn stretches(&self) -> &[Stretch]
        ensures { whole result.now ≡ self.now }
    {
        self.stretches.as_slice()
    }

    /// The number of entries, equal ones each counted.
    pub fn len(&self) -> u64
        ensures { result ≡ length self.now }
    {
        self.len
    }

    /// The time of the newest entry in milliseconds, 0 where there is none.
    pub fn newest_time(&self) -> u64
        ensures { result ≡ newest_time self.now }
    {
        match self.stretches.last() {
            Some(newest) => newest.now,
            None => 0,
        }
    }

    /// The time of an entry that is added after a wait; none where there is no room for it, since its place or its time would pass the greatest
    /// number of 64 bits.
    pub fn time_of_next(&self, wait_ms: u32) -> Option<u64>
        ensures room { IfSome result (λ now. (length self.now < greatest_count) × (now ≡ newest_time self.now + wait_ms)) }
        ensures none { IfNone result ((length self.now ≡ greatest_count) ⊎ (greatest_count < newest_time self.now + wait_ms)) }
    {
        if self.len == u64::MAX {
            return None;
        }
        self.newest_time().checked_add(u64::from(wait_ms))
    }

    /// Adds an entry. At `Err` nothing has changed.
    pub fn add(&mut self, what: Item, now: u64) -> Result<(), NoMemory>
        requires { length self.old < greatest_count }
        ensures { self.new ≡ with_entry result (entry (told what) now) self.old }
    {
        grow(&mut self.stretches, what, now)?;
        self.len += 1;
        Ok(())
    }
}
