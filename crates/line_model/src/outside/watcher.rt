//! What watches a run.

ghost use Rattle.line_model.specs.Watched.{Logged, Reported, Tells};

use crate::log::LogEntry;
use knx_model::IndAddr;

/// How far a job is that a worker holds.
#[derive(Clone, Copy, Drop)]
pub struct JobProgress {
    /// How many events, or entries of the record, there were.
    pub at: u64,
    /// The last time that the link read, in milliseconds.
    pub now: u64,
    pub worker: u8,
    /// The job, from 1.
    pub job: u32,
    pub device: IndAddr,
    /// How many of its operations are over in the attempt that runs: each was sent and, where it has an answer, answered as wanted.
    pub done: u32,
    /// How many operations its plan has, by what the device has told of the size of its frames so far.
    pub all: u32,
}

/// Watches a run.
pub trait Watcher: Drop {
    ghost use Rattle.line_model.specs.Watched.{Watch};

    /// What it tells of itself.
    ghost watch: { Self → Watch };

    /// An entry was added to the log.
    fn entry(&mut self, entry: &LogEntry)
        ensures { Tells (Logged entry.now) (watch self.old) (watch self.new) };

    /// A job has come so far.
    fn progress(&mut self, progress: JobProgress)
        ensures { Tells (Reported progress) (watch self.old) (watch self.new) };
}

/// Where nobody watches, nothing is told.
impl<W: Watcher> Watcher for Option<W> {
    ghost use Rattle.line_model.specs.Watched.{watch_in};

    ghost watch = { watch_in W.watch };

    fn entry(&mut self, entry: &LogEntry) {
        if let Some(watcher) = self {
            watcher.entry(entry);
        }
    }

    fn progress(&mut self, progress: JobProgress) {
        if let Some(watcher) = self {
            watcher.progress(progress);
        }
    }
}
