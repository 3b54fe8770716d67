//! The run of a line.

ghost use Rattle.std.specs.Prelude.{◌≡◌, ◌<◌, ◌≤◌, [], IfErr, IfOk, None, Some, length, map, replicate};
ghost use Rattle.std.specs.List.{AllByRecursion};
ghost use Rattle.hub_core.specs.Commissioned.{Commissioned};
ghost use Rattle.hub_core.specs.Left.{AllDone};
ghost use Rattle.hub_core.specs.Seen.{tasks_seen};
ghost use Rattle.hub_work.specs.declared.job.HubJob.{HubJob as JobOfHub};
ghost use Rattle.hub_work.specs.Requests.{IsTurnInRange};
ghost use Rattle.line_model.specs.LinkStory.{IsNewLink};
ghost use Rattle.shared_hub.specs.Sites.{IsOpening, items_of};
ghost use Rattle.shared_hub.specs.Runs.{RunsOf, WatchesRun};
ghost use Rattle.shared_hub.specs.Watchers.{IsWatchedAt};
ghost use Rattle.telegram_router.specs.Ends.{first_ear, first_feed};
ghost use Rattle.turn_cell.specs.Seats.{first_seat};

use crate::crew::all_done;
use crate::ending::Ending;
use crate::listener::Listener;
use crate::relay::Relay;
use crate::site::{Parts, Site};
use crate::watching::Watching;
use hub_core::{GroupTurn, Hub, HubEnd, HubFault, HubJob};
use knx_model::{List, NoMemory};
use line_law::every_safe_interleaving;
use line_model::{Gate, Link, Report, Watcher};
use std::alloc::{AllocError, AllocFailed, Global};
use std::snapshot::Snapshot;
use std::sync::Wait;
use std::thread::Threads;
use telegram_router::Feed;
use turn_cell::{Seat, Turn};

/// A relay with both its ends.
#[derive(Drop)]
struct Listening {
    relay: Relay,
    feed: Feed,
    listener: Listener,
}

impl Listening {
    /// It takes all memory that listening needs to the first 4,096 group telegrams.
    fn new(alloc: Global) -> Result<Listening, NoMemory>
        ensures feed { IfOk result (λ made. made.feed ≡ first_feed made.relay) }
        ensures listener { IfOk result (λ made. made.listener ≡ first_ear made.relay) }
    {
        let (relay, feed, ear) = Relay::new(alloc)?;
        let listener = Listener::new(alloc, ear)?;
        Ok(Listening {
            relay,
            feed,
            listener,
        })
    }
}

/// What is told where nothing was done, since there was no memory for a hub or its cell.
fn nothing_done(alloc: Global, no_memory: NoMemory) -> Report
    ensures log { result.log ≡ [] }
    ensures heard { result.heard ≡ [] }
    ensures missed { result.missed ≡ 0 }
    ensures dropped { result.dropped ≡ 0 }
    ensures fault { result.fault ≡ Some (HubFault.NoMemory no_memory) }
{
    Report {
        log: List::new(alloc),
        heard: List::new(alloc),
        missed: 0,
        dropped: 0,
        fault: Some(HubFault::NoMemory(no_memory)),
    }
}

/// The link, and who watched, of a site that is given up before its first turn.
fn given_up<L: Link, W: Watcher>(site: Site<L, W>) -> (L, W)
    ensures link { result.0 ≡ site.hub.link }
    ensures watcher { W.watch result.1 ≡ site.watching.watch }
    ensures watches { IsWatchedAt L.story site.hub site.hub.log (W.watch site.watched.value) site.watching }
{
    let Parts {
        hub,
        feed: _,
        watching,
    } = site.apart();
    let HubEnd { link, .. } = hub.close();
    (link, watching.into_watcher())
}

/// Closes the run that is left so, and hands the link and who watched back with what is told.
fn ended<R: Wait, L: Link, W: Watcher>(
    rt: &R,
    site: Site<L, W>,
    relay: &Relay,
    listener: Listener,
) -> (L, Report, W)
    requires done { site.hub.fault ≡ None → AllDone site.hub }
    requires feed { site.relay.value ≡ relay.now }
    requires listens { listener.router ≡ relay.now }
    ensures runs { RunsOf L.story L.place L.script L.faults site.opening.value result.0 result.1 }
    ensures watched { WatchesRun (tasks_seen site.opening.value.jobs) (L.story result.0) site.opening.value.devices (W.watch site.watched.value) (W.watch result.2) result.1 }
{
    let Parts {
        mut hub,
        feed,
        watching,
    } = site.apart();
    let heard = listener.close(rt, relay, feed, &mut hub);
    let ended = hub.fault();
    let (link, report) = Ending { hub, heard }.end(rt, ended);
    (link, report, watching.into_watcher())
}

/// A cell, and its first seat.
type Begun<L, W> = (Turn<Box<Site<L, W>>>, Seat<Box<Site<L, W>>>);

/// What a box had no memory for.
fn handed_back<T: Drop>(refused: AllocFailed<T>) -> (T, NoMemory)
    ensures { result.0 ≡ refused.value }
{
    let AllocFailed { value } = refused;
    (value, NoMemory::from(AllocError))
}

/// A cell with this site, in a box, and the cell's first seat. A refusal hands the site back.
fn cell_of<L: Link, W: Watcher>(
    alloc: Global,
    site: Site<L, W>,
) -> Result<Begun<L, W>, (Site<L, W>, NoMemory)>
    ensures opening { IfOk result (λ made. made.0.opening ≡ items_of site) }
    ensures seat { IfOk result (λ made. made.1 ≡ first_seat made.0) }
    ensures refused { IfErr result (λ back. back.0 ≡ site) }
{
    let boxed = match Box::new(alloc, site) {
        Ok(boxed) => boxed,
        Err(refused) => return Err(handed_back(refused)),
    };
    match Turn::new(alloc, boxed) {
        Ok(made) => Ok(made),
        Err((boxed, no_memory)) => Err((Box::into_inner(boxed), no_memory)),
    }
}

/// A run from its beginning to its end, or none where there is no memory for its cell.
fn run<R: Threads + Wait + Sync, L: Link + Send, W: Watcher + Send, G: Gate + Sync>(
    rt: &R,
    alloc: Global,
    hub: Hub<L>,
    listening: Listening,
    watching: Watching<W>,
    watched: Snapshot<W>,
    workers: u8,
    gate: &G,
) -> (L, Report, W)
    requires opening { IsOpening L.story hub }
    requires watched { IsWatchedAt L.story hub hub.log (W.watch watched.value) watching }
    requires crew { hub.crew ≡ replicate workers None }
    requires feed { listening.feed ≡ first_feed listening.relay }
    requires listener { listening.listener ≡ first_ear listening.relay }
    requires some_worker { 1 ≤ workers }
    requires few_workers { workers ≤ 8 }
    ensures runs { RunsOf L.story L.place L.script L.faults hub result.0 result.1 }
    ensures watched { WatchesRun (tasks_seen hub.jobs) (L.story result.0) hub.devices (W.watch watched.value) (W.watch result.2) result.1 }
{
    let Listening {
        relay,
        feed,
        listener,
    } = listening;
    match cell_of(alloc, Site::new(hub, &relay, feed, watching, watched)) {
        Ok((cell, seat)) => {
            let (site, listener) = all_done(rt, cell, seat, &relay, listener, workers, gate);
            site.keeps();
            ended(rt, site, &relay, listener)
        }
        Err((site, no_memory)) => {
            every_safe_interleaving();
            let (link, watcher) = given_up(site);
            (link, nothing_done(alloc, no_memory), watcher)
        }
    }
}

/// A hub, what listening needs, and who watches. All memory of the run but that of its cell is taken here; for want of it the link and who watches are handed
/// back.
fn begun<L: Link, W: Watcher>(
    alloc: Global,
    jobs: List<HubJob>,
    groups: List<GroupTurn>,
    workers: u8,
    link: L,
    watcher: W,
) -> Result<(Hub<L>, Listening, Watching<W>), (L, W, NoMemory)>
    requires some_worker { 1 ≤ workers }
    requires few_workers { workers ≤ 8 }
    requires few_jobs { length jobs < 4294967296 }
    requires few_groups { length groups < 4294967296 }
    requires sendable { AllByRecursion IsTurnInRange groups }
    requires new { IsNewLink (L.story link) }
    ensures link { IfOk result (λ made. made.0.link ≡ link) }
    ensures jobs { IfOk result (λ made. tasks_seen made.0.jobs ≡ tasks_seen jobs) }
    ensures devices { IfOk result (λ made. made.0.devices ≡ map (λ (j : JobOfHub). j.device) jobs) }
    ensures turns { IfOk result (λ made. made.0.turns ≡ groups) }
    ensures crew { IfOk result (λ made. made.0.crew ≡ replicate workers None) }
    ensures log { IfOk result (λ made. made.0.log ≡ []) }
    ensures fault { IfOk result (λ made. made.0.fault ≡ None) }
    ensures missed { IfOk result (λ made. made.0.missed ≡ 0) }
    ensures unbegun { IfOk result (λ made. made.0.closing ≡ None) }
    ensures feed { IfOk result (λ made. made.1.feed ≡ first_feed made.1.relay) }
    ensures listener { IfOk result (λ made. made.1.listener ≡ first_ear made.1.relay) }
    ensures watched { IfOk result (λ made. IsWatchedAt L.story made.0 [] (W.watch watcher) made.2) }
    ensures handed_back { IfErr result (λ e. e.0 ≡ link) }
    ensures watcher { IfErr result (λ e. W.watch e.1 ≡ W.watch watcher) }
{
    let listening = match Listening::new(alloc) {
        Ok(listening) => listening,
        Err(no_memory) => return Err((link, watcher, no_memory)),
    };
    let watching = match Watching::new(alloc, watcher, jobs.len()) {
        Ok(watching) => watching,
        Err((watcher, no_memory)) => return Err((link, watcher, no_memory)),
    };
    match Hub::begin(alloc, jobs, groups, workers, link) {
        Ok(hub) => Ok((hub, listening, watching)),
        Err((link, no_memory)) => Err((link, watching.into_watcher(), no_memory)),
    }
}

/// Commissions a line by 1 to 8 workers: goes through all jobs, sends all group telegrams, and closes, over a link on which nothing was done. The gate is passed
/// between taking a job and starting it; who watches is told each entry of the log in the turn in which it is made, and of each job that is held, at most once a
/// second, how far it is. It gives the link and the watcher back, and what is told of the run. Want of memory before the first turn is the report's fault, and then nothing was done; later a
/// group telegram that is heard and can't be kept is counted as missed.
pub fn commission<R: Threads + Wait + Sync, L: Link + Send, W: Watcher + Send, G: Gate + Sync>(
    rt: &R,
    alloc: Global,
    jobs: List<HubJob>,
    groups: List<GroupTurn>,
    link: L,
    workers: u8,
    gate: &G,
    watcher: W,
) -> (L, Report, W)
    requires some_worker { 1 ≤ workers }
    requires few_workers { workers ≤ 8 }
    requires few_jobs { length jobs < 4294967296 }
    requires few_groups { length groups < 4294967296 }
    requires sendable { AllByRecursion IsTurnInRange groups }
    requires new { IsNewLink (L.story link) }
    ensures commissioned { Commissioned L.story L.place L.script L.faults workers jobs groups link result.0 result.1 }
    ensures watched { WatchesRun (tasks_seen jobs) (L.story result.0) (map (λ (j : JobOfHub). j.device) jobs) (W.watch watcher) (W.watch result.2) result.1 }
{
    let watched = Snapshot::of(&watcher);
    match begun(alloc, jobs, groups, workers, link, watcher) {
        Ok((hub, listening, watching)) => run(
            rt, alloc, hub, listening, watching, watched, workers, gate,
        ),
        Err((link, watcher, no_memory)) => {
            every_safe_interleaving();
            (link, nothing_done(alloc, no_memory), watcher)
        }
    }
}
