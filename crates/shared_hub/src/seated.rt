//! A downloader, and the group thread: each takes turns at the cell, and makes calls of the hub in each.

ghost use Rattle.std.specs.Prelude.{◌≡◌, ◌≤◌, false};
ghost use Rattle.shared_hub.specs.Items.{HasFinished, HasTold};
ghost use Rattle.shared_hub.specs.Works.{ComesTo, Got, IsDone, Leads, Stays};

use crate::listener::Listener;
use crate::relay::Relay;
use crate::site::{Site, Step};
use line_model::{Gate, Link, Watcher};
use std::sync::Wait;
use std::thread::yield_now;
use turn_cell::{Seat, Turn};

/// One turn of a worker.
fn turn<R: Wait, L: Link, W: Watcher>(
    rt: &R,
    cell: &Turn<Box<Site<L, W>>>,
    relay: &Relay,
    seat: &mut Seat<Box<Site<L, W>>>,
    worker: u8,
) -> Step
    requires of { seat.old.cell ≡ cell.now.id }
    requires free { seat.old.turn ≡ false }
    requires from_1 { 1 ≤ worker }
    requires leads { Leads worker relay.now seat.old.seen }
    ensures seat { Stays seat.old seat.new }
    ensures got { Got worker seat.old seat.new }
    ensures comes { ComesTo (HasFinished worker) result seat.new.seen }
{
    let mut site = cell.take(rt, seat);
    let came = site.step(rt, relay, worker);
    cell.give(seat, site);
    came
}

/// Goes through jobs as the worker of this number, from 1, turn by turn, until each job is taken and none is his any longer, or the run has ended. The gate is
/// passed between taking a job and starting it.
pub fn work<R: Wait, L: Link, W: Watcher, G: Gate>(
    rt: &R,
    cell: &Turn<Box<Site<L, W>>>,
    relay: &Relay,
    seat: &mut Seat<Box<Site<L, W>>>,
    worker: u8,
    gate: &G,
)
    requires of { seat.old.cell ≡ cell.now.id }
    requires free { seat.old.turn ≡ false }
    requires from_1 { 1 ≤ worker }
    requires leads { Leads worker relay.now seat.old.seen }
    ensures seat { Stays seat.old seat.new }
    ensures mine { Got worker seat.old seat.new }
    ensures done { IsDone (HasFinished worker) seat.new.seen }
{
    for _ in rt.forever() {
        match turn(rt, cell, relay, seat, worker) {
            Step::Took(job) => gate.pass(job),
            Step::Told | Step::Moved => {}
            Step::Waits => yield_now(),
            Step::Ready | Step::Failed => return,
        }
    }
    unreachable!()
}

/// One turn of the group thread.
fn group_turn<R: Wait, L: Link, W: Watcher>(
    rt: &R,
    cell: &Turn<Box<Site<L, W>>>,
    relay: &Relay,
    seat: &mut Seat<Box<Site<L, W>>>,
) -> Step
    requires of { seat.old.cell ≡ cell.now.id }
    requires free { seat.old.turn ≡ false }
    requires leads { Leads 0 relay.now seat.old.seen }
    ensures seat { Stays seat.old seat.new }
    ensures got { Got 0 seat.old seat.new }
    ensures comes { ComesTo HasTold result seat.new.seen }
{
    let mut site = cell.take(rt, seat);
    let came = site.tell(rt, relay);
    cell.give(seat, site);
    came
}

/// Sends the group telegrams in the order of their numbers, turn by turn, until each is told, or the run has ended; and listens between its turns.
pub fn send_groups<R: Wait, L: Link, W: Watcher>(
    rt: &R,
    cell: &Turn<Box<Site<L, W>>>,
    relay: &Relay,
    seat: &mut Seat<Box<Site<L, W>>>,
    listener: &mut Listener,
)
    requires of { seat.old.cell ≡ cell.now.id }
    requires free { seat.old.turn ≡ false }
    requires leads { Leads 0 relay.now seat.old.seen }
    requires listens { listener.old.router ≡ relay.now }
    ensures seat { Stays seat.old seat.new }
    ensures mine { Got 0 seat.old seat.new }
    ensures done { IsDone HasTold seat.new.seen }
    ensures listens { listener.new.router ≡ listener.old.router }
{
    for _ in rt.forever() {
        listener.collect(rt, relay);
        match group_turn(rt, cell, relay, seat) {
            Step::Took(_) | Step::Told | Step::Moved => {}
            Step::Waits => yield_now(),
            Step::Ready | Step::Failed => return,
        }
    }
    unreachable!()
}

/// Listens until no worker is left. It takes no turn: it sleeps until something was heard.
pub fn listen<R: Wait>(rt: &R, relay: &Relay, listener: &mut Listener)
    requires of { listener.old.router ≡ relay.now }
    ensures of { listener.new.router ≡ listener.old.router }
{
    for _ in rt.forever() {
        listener.collect(rt, relay);
        if relay.has_rung_last() {
            return;
        }
        relay.sleep(rt);
    }
    unreachable!()
}
