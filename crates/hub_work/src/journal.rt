//! The log as it is written.

ghost use Rattle.std.specs.Prelude.{◌≡◌, ◌+◌, ◌<◌, ◌≤◌, [], ◌∷◌, length, reverse, IfOk, IfSome, None, Some};
ghost use Rattle.hub_work.specs.Journals.{newest};

use knx_model::{List, NoMemory};
use line_model::{LogEntry, LogWhat};
use std::alloc::Global;
use std::marker::Model;

/// The log, whose memory was taken before. Contracts see its entries, the newest first, and for how many more there is room.
#[derive(Drop)]
pub struct Journal {
    entries: Vec<LogEntry>,
}

impl Model for Journal {
    ghost use Rattle.std.specs.Prelude.{◌-◌, reverse, vec_len, vec_capacity};
    ghost use Rattle.hub_work.specs.Journals.{Written};

    ghost Value = { Written };

    ghost view = { λ j. record { entries = reverse j.entries.items; room = vec_capacity j.entries - vec_len j.entries } };
}

impl Journal {
    /// An empty log with room for so many entries.
    pub fn with_room(alloc: Global, room: usize) -> Result<Journal, NoMemory>
        ensures empty { IfOk result (λ journal. journal.entries ≡ []) }
        ensures room { IfOk result (λ journal. room ≤ journal.room) }
    {
        let entries = Vec::with_capacity(alloc, room)?;
        Ok(Journal { entries })
    }

    /// Adds an entry, for which there is room: it takes no memory.
    pub fn add(&mut self, at: u64, worker: u8, what: LogWhat)
        requires { 1 ≤ self.old.room }
        ensures added { self.new.entries ≡ record { at = at; worker = worker; what = what } ∷ self.old.entries }
        ensures room { self.old.room ≤ self.new.room + 1 }
    {
        let _ = self.entries.push(LogEntry { at, worker, what });
    }

    /// How many entries there are.
    pub fn len(&self) -> usize
        ensures count { result ≡ length self.now.entries }
        ensures small { result < 18446744073709551615 }
    {
        self.entries.len()
    }

    /// The newest entry.
    pub fn newest(&self) -> Option<&LogEntry>
        ensures some { IfSome result (λ e. newest self.now.entries ≡ Some e.now) }
        ensures none { result ≡ None → self.now.entries ≡ [] }
    {
        self.entries.last()
    }

    /// The entries, the oldest first.
    pub fn into_list(self) -> List<LogEntry>
        ensures { result ≡ reverse self.entries }
    {
        let Journal { entries } = self;
        List::from_vec(entries)
    }
}
