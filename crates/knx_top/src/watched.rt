//! A run that is watched, or is quiet.

ghost use Rattle.std.specs.Prelude.{◌≡◌, ◌≤◌, ◌<◌, false, length, map, true};
ghost use Rattle.std.specs.List.{AllByRecursion};
ghost use Rattle.hub_core.specs.Commissioned.{Commissioned};
ghost use Rattle.hub_work.specs.Requests.{IsTurnInRange};
ghost use Rattle.hub_work.specs.declared.job.HubJob.{HubJob as JobOfHub};
ghost use Rattle.line_model.specs.LinkStory.{IsNewLink};
ghost use Rattle.line_model.specs.Watched.{watch_in};
ghost use Rattle.knx_top.specs.Ran.{HasThreeTries};
ghost use Rattle.knx_top.specs.Watched.{TellsWatcher};

use hub_work::HubJob;
use knx_model::List;
use line_model::{Gate, GroupTurn, Link, Report, Watcher};
use shared_hub::commission as commission_line;
use std::alloc::Global;
use std::sync::Wait;
use std::thread::Threads;

/// What a line is commissioned with.
#[derive(Drop)]
pub struct Run<L: Link> {
    pub jobs: List<HubJob>,
    pub groups: List<GroupTurn>,
    pub link: L,
    pub workers: u8,
    /// Whether nothing is told before its end.
    pub quiet: bool,
}

/// Who is told of a run: nobody of one that is quiet.
fn taken<W: Drop>(quiet: bool, watch: &mut Option<W>) -> Option<W>
    ensures told { quiet ≡ false → result ≡ watch.old }
    ensures quiet { quiet ≡ true → watch.new ≡ watch.old }
{
    if quiet {
        return None;
    }
    watch.take()
}

/// Gives back who was told of a run.
fn given_back<W: Drop>(quiet: bool, watch: &mut Option<W>, watcher: Option<W>)
    ensures told { quiet ≡ false → watch.new ≡ watcher }
    ensures quiet { quiet ≡ true → watch.new ≡ watch.old }
{
    if !quiet {
        *watch = watcher;
    }
}

/// Commissions a line, and tells who watches of it, unless it is quiet.
pub fn commission<R: Threads + Wait + Sync, L: Link + Send, G: Gate + Sync, W: Watcher + Send>(
    rt: &R,
    alloc: Global,
    run: Run<L>,
    gate: &G,
    watch: &mut Option<W>,
) -> (L, Report)
    requires some_worker { 1 ≤ run.workers }
    requires few_workers { run.workers ≤ 8 }
    requires few_jobs { length run.jobs < 4294967296 }
    requires few_groups { length run.groups < 4294967296 }
    requires sendable { AllByRecursion IsTurnInRange run.groups }
    requires new { IsNewLink (L.story run.link) }
    ensures commissioned { Commissioned L.story L.place L.script L.faults run.workers run.jobs run.groups run.link result.0 result.1 }
    ensures tries { HasThreeTries result.1.fault }
    ensures watched { TellsWatcher (map (λ (job : JobOfHub). job.device) run.jobs) run.quiet result.1 (watch_in W.watch watch.old) (watch_in W.watch watch.new) }
{
    let Run {
        jobs,
        groups,
        link,
        workers,
        quiet,
    } = run;
    let watcher = taken(quiet, watch);
    let (link, report, watcher) = commission_line(
        rt, alloc, jobs, groups, link, workers, gate, watcher,
    );
    given_back(quiet, watch, watcher);
    (link, report)
}
