//! A watcher that keeps what it is told.

ghost use Rattle.std.specs.Prelude.{◌≡◌};
ghost use Rattle.line_model.specs.Watched.{Untold};

use line_model::{JobProgress, LogEntry, Watcher};
use std::alloc::Global;

/// The place and the worker of an entry of the log.
#[derive(Clone, Copy, Drop, PartialEq, Eq)]
pub struct Place {
    pub at: u64,
    pub worker: u8,
}

/// A watcher that keeps of each entry the place and the worker, and each report, as long as there is memory. Tests read it; it tells contracts nothing.
#[derive(Drop)]
pub struct FixedWatcher {
    entries: Vec<Place>,
    reports: Vec<JobProgress>,
}

impl FixedWatcher {
    /// It was told nothing yet. It takes no memory.
    pub fn new(alloc: Global) -> FixedWatcher {
        FixedWatcher {
            entries: Vec::new(alloc),
            reports: Vec::new(alloc),
        }
    }

    /// The entries, the oldest first.
    pub fn entries(&self) -> &[Place] {
        self.entries.as_slice()
    }

    /// The reports, the oldest first.
    pub fn reports(&self) -> &[JobProgress] {
        self.reports.as_slice()
    }
}

impl Watcher for FixedWatcher {
    ghost watch = { λ _. Untold };

    fn entry(&mut self, entry: &LogEntry) {
        let _ = self.entries.push(Place {
            at: entry.at,
            worker: entry.worker,
        });
    }

    fn progress(&mut self, progress: JobProgress) {
        let _ = self.reports.push(progress);
    }
}
