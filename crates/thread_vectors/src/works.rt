//! Two threads of a test, each of which works at the same cell.

ghost use Rattle.std.specs.Prelude.{◌≡◌, ◌<◌, ◌≤◌, None, IfOk, false, length, replicate};
ghost use Rattle.bus_sim.specs.Loaded.{BusNow};
ghost use Rattle.bus_sim.specs.RunNow.{story};
ghost use Rattle.shared_hub.specs.Sites.{IsOpening, items_of};
ghost use Rattle.shared_hub.specs.Works.{Leads};
ghost use Rattle.telegram_router.specs.Ends.{first_feed};
ghost use Rattle.turn_cell.specs.Seats.{first_seat};

use crate::gate::HoldsTheFirst;
use crate::line::{blank_line, done_in, jobs_of_all};
use bus_sim::SimBus;
use hub_core::{Hub, HubEnd, HubJob};
use knx_model::List;
use line_fixed::FixedWatcher;
use line_model::{Gate, Link, Watcher};
use shared_hub::{Relay, Site, Watching, work};
use std::alloc::Global;
use std::process::Abort;
use std::snapshot::Snapshot;
use std::sync::Wait;
use std::test::Fail;
use std::thread::{Threads, join};
use telegram_router::Feed;
use turn_cell::{Seat, Turn};

/// A cell, and its first seat.
type Begun = (
    Turn<Box<Site<SimBus, FixedWatcher>>>,
    Seat<Box<Site<SimBus, FixedWatcher>>>,
);

fn worked<R: Wait, L: Link, W: Watcher, G: Gate>(
    rt: &R,
    cell: &Turn<Box<Site<L, W>>>,
    relay: &Relay,
    mut seat: Seat<Box<Site<L, W>>>,
    worker: u8,
    gate: &G,
) -> Seat<Box<Site<L, W>>>
    requires of { seat.cell ≡ cell.now.id }
    requires free { seat.turn ≡ false }
    requires from_1 { 1 ≤ worker }
    requires leads { Leads worker relay.now seat.seen }
    ensures of { result.cell ≡ seat.cell }
    ensures free { result.turn ≡ false }
    ensures parts { result.parts ≡ seat.parts }
{
    work(rt, cell, relay, &mut seat, worker, gate);
    seat
}

/// The workers `first` and `second`, each in a thread of its own.
fn both_worked<R: Threads + Wait + Sync, L: Link + Send, W: Watcher + Send, G: Gate + Sync>(
    rt: &R,
    cell: &Turn<Box<Site<L, W>>>,
    relay: &Relay,
    mut seat: Seat<Box<Site<L, W>>>,
    first: u8,
    second: u8,
    gate: &G,
) -> Seat<Box<Site<L, W>>>
    requires of { seat.cell ≡ cell.now.id }
    requires free { seat.turn ≡ false }
    requires two { 2 ≤ seat.parts }
    requires first_from_1 { 1 ≤ first }
    requires second_from_1 { 1 ≤ second }
    requires first_leads { Leads first relay.now seat.seen }
    requires second_leads { Leads second relay.now seat.seen }
    ensures of { result.cell ≡ seat.cell }
    ensures free { result.turn ≡ false }
    ensures parts { result.parts ≡ seat.parts }
{
    let other = cell.split(&mut seat);
    let (mut both, last) = join(
        rt,
        move || -> Seat<Box<Site<L, W>>>
            requires { (seat.cell ≡ cell.now.id) × (seat.turn ≡ false) × (1 ≤ first) × Leads first relay.now seat.seen }
            ensures { (result.cell ≡ seat.cell) × (result.turn ≡ false) × (result.parts ≡ seat.parts) }
        { worked(rt, cell, relay, seat, first, gate) },
        move || -> Seat<Box<Site<L, W>>>
            requires { (other.cell ≡ cell.now.id) × (other.turn ≡ false) × (1 ≤ second) × Leads second relay.now other.seen }
            ensures { (result.cell ≡ other.cell) × (result.turn ≡ false) × (result.parts ≡ other.parts) }
        { worked(rt, cell, relay, other, second, gate) },
    );
    cell.join(&mut both, last);
    both
}

/// A hub over a line with a device for each job, for two workers.
fn hub_for_two(alloc: Global, jobs: List<HubJob>) -> Result<Hub<SimBus>, Fail>
    requires few_jobs { length jobs < 4294967296 }
    ensures opening { IfOk result (λ hub. IsOpening (λ (line : BusNow). story line.run) hub) }
    ensures crew { IfOk result (λ hub. hub.crew ≡ replicate 2 None) }
{
    match Hub::begin(alloc, jobs, List::new(alloc), 2, blank_line(alloc)?) {
        Ok(hub) => Ok(hub),
        Err((_line, no_memory)) => Err(Fail::from(no_memory)),
    }
}

/// Its site, with a watcher who was told nothing yet.
fn site_for_two(
    alloc: Global,
    jobs: List<HubJob>,
    relay: &Relay,
    feed: Feed,
) -> Result<Site<SimBus, FixedWatcher>, Fail>
    requires few_jobs { length jobs < 4294967296 }
    requires feed { feed ≡ first_feed relay.now }
    ensures { IfOk result (λ site. Leads 2 relay.now (items_of site)) }
{
    let watcher = FixedWatcher::new(alloc);
    let watched = Snapshot::of(&watcher);
    let Ok(watching) = Watching::new(alloc, watcher, jobs.len()) else {
        return Err(Fail::from("a watcher"));
    };
    let hub = hub_for_two(alloc, jobs)?;
    Ok(Site::new(hub, relay, feed, watching, watched))
}

/// A cell with this site, in a box, and the cell's first seat.
fn cell_of(alloc: Global, site: Site<SimBus, FixedWatcher>) -> Result<Begun, Fail>
    ensures opening { IfOk result (λ made. made.0.opening ≡ items_of site) }
    ensures seat { IfOk result (λ made. made.1 ≡ first_seat made.0) }
{
    let Ok(boxed) = Box::new(alloc, site) else {
        return Err(Fail::from("a site"));
    };
    match Turn::new(alloc, boxed) {
        Ok(made) => Ok(made),
        Err((_boxed, no_memory)) => Err(Fail::from(no_memory)),
    }
}

/// What is left of the run of two threads at one cell.
fn run<R: Abort + Threads + Wait + Sync, G: Gate + Sync>(
    rt: &R,
    alloc: Global,
    gate: &G,
) -> Result<HubEnd<SimBus>, Fail> {
    let (relay, feed, _ear) = Relay::new(alloc)?;
    let jobs = jobs_of_all(alloc)?;
    assert!(rt; jobs.len() < 100);
    let site = site_for_two(alloc, jobs, &relay, feed)?;
    let (cell, first) = cell_of(alloc, site)?;
    let last = both_worked(rt, &cell, &relay, first, 1, 2, gate);
    let parts = Box::into_inner(cell.close(last)).apart();
    Ok(parts.hub.close())
}

#[test]
fn a_thread_works_while_another_is_at_the_gate(rt: HostRuntime) -> Result<(), Fail> {
    let gate = HoldsTheFirst::new();
    let end = run(&rt, rt.alloc(), &gate)?;
    assert!(rt; end.fault.is_none());
    assert_eq!(rt; done_in(end.log.as_slice()), 5);
    assert_eq!(rt; gate.gave_up(), 0);
    Ok(())
}
