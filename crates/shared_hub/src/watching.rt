//! Who watches a run.

ghost use Rattle.std.specs.Prelude.{◌≡◌, ◌-◌, None, IfErr, IfOk, List, Some, length, replicate};
ghost use Rattle.line_model.specs.declared.log.LogEntry.{LogEntry as Entry};
ghost use Rattle.line_model.specs.Log.{numbered_from_one};
ghost use Rattle.line_model.specs.Watched.{Logged, Tells, Watch};
ghost use Rattle.shared_hub.specs.Watchers.{IsWatchedAt, LogsBy, TellsInTime, is_time};

use crate::site::Step;
use hub_core::Hub;
use knx_model::NoMemory;
use line_model::{JobProgress, Link, LogEntry, Watcher};
use std::alloc::Global;
use std::marker::Model;

/// So many milliseconds pass at least from one report of a job to the next.
const SECOND_MS: u64 = 1_000;

/// Who watches, and when he was told last of each job.
#[derive(Drop)]
pub struct Watching<W: Watcher> {
    watcher: W,
    told: Vec<Option<u64>>,
}

impl<W: Watcher> Model for Watching<W> {
    ghost use Rattle.shared_hub.specs.Watchers.{WatcherSeen};

    ghost Value = { WatcherSeen };

    ghost view = { λ w. record { watch = W.watch w.watcher; told = w.told.items } };
}

impl<W: Watcher> Watching<W> {
    /// He was told of none of so many jobs. For want of memory he is handed back.
    pub fn new(alloc: Global, watcher: W, jobs: usize) -> Result<Watching<W>, (W, NoMemory)>
        ensures watch { IfOk result (λ made. made.watch ≡ W.watch watcher) }
        ensures told { IfOk result (λ made. made.told ≡ replicate jobs None) }
        ensures handed_back { IfErr result (λ e. e.0 ≡ watcher) }
    {
        match Vec::from_elem(alloc, None, jobs) {
            Ok(told) => Ok(Watching { watcher, told }),
            Err(refused) => Err((watcher, NoMemory::from(refused))),
        }
    }

    /// Who watched.
    pub fn into_watcher(self) -> W
        ensures { W.watch result ≡ self.watch }
    {
        let Watching { watcher, told: _ } = self;
        watcher
    }

    /// Tells what a call of the hub came to: the entry that it added to the log.
    pub fn tell_entry<L: Link>(&mut self, hub: &Hub<L>, came: Step)
        ensures { (log : List Entry) (before : Watch) → LogsBy came log hub.now.log → IsWatchedAt L.story hub.now log before self.old → IsWatchedAt L.story hub.now hub.now.log before self.new }
    {
        match came {
            Step::Took(_) | Step::Told => {
                if let Some(entry) = hub.newest() {
                    self.watcher.entry(entry);
                }
            }
            Step::Moved | Step::Waits | Step::Ready | Step::Failed => {}
        }
    }

    /// Tells how far the job is that a worker holds, at most once a second.
    pub fn tell_progress<L: Link>(&mut self, hub: &Hub<L>, worker: u8)
        requires { hub.now.fault ≡ None }
        ensures { (before : Watch) → IsWatchedAt L.story hub.now hub.now.log before self.old → IsWatchedAt L.story hub.now hub.now.log before self.new }
    {
        hub.keeps();
        if let Some(progress) = hub.progress(worker) {
            self.progress(progress);
        }
    }

    /// Tells how far a job is, where it is time.
    fn progress(&mut self, progress: JobProgress)
        ensures { TellsInTime progress self.old self.new }
    {
        if !self.is_time(progress.job, progress.now) {
            return;
        }
        self.told[progress.job as usize - 1] = Some(progress.now);
        self.watcher.progress(progress);
    }

    /// Whether it is time to tell of a job.
    fn is_time(&self, job: u32, now: u64) -> bool
        ensures { result ≡ is_time now (numbered_from_one self.now.told job) }
    {
        let Some(index) = (job as usize).checked_sub(1) else {
            return false;
        };
        match self.told.get(index) {
            None => false,
            Some(None) => true,
            Some(Some(before)) => match before.checked_add(SECOND_MS) {
                Some(next) => next <= now,
                None => false,
            },
        }
    }
}
