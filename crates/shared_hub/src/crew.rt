//! The downloaders and the group thread, each in a thread of its own.

ghost use Rattle.std.specs.Prelude.{◌≡◌, ◌+◌, ◌-◌, ◌<◌, ◌≤◌, false};
ghost use Rattle.std.specs.Thread.{IsSync};
ghost use mathlib.Core.List.{IsPrefix};
ghost use Rattle.shared_hub.specs.Items.{HasFinished, HasTold};
ghost use Rattle.shared_hub.specs.Sites.{items_of};
ghost use Rattle.shared_hub.specs.Works.{AllDone, Leads, Sees, WasDone};

use crate::listener::Listener;
use crate::relay::Relay;
use crate::seated::{listen, send_groups, work};
use crate::site::Site;
use line_model::{Gate, Link, Watcher};
use std::sync::Wait;
use std::thread::{Threads, join};
use turn_cell::{Seat, Turn};

fn worked<R: Wait, L: Link, W: Watcher, G: Gate>(
    rt: &R,
    cell: &Turn<Box<Site<L, W>>>,
    relay: &Relay,
    mut seat: Seat<Box<Site<L, W>>>,
    worker: u8,
    gate: &G,
) -> Seat<Box<Site<L, W>>>
    requires of { seat.cell ≡ cell.now.id }
    requires free { seat.turn ≡ false }
    requires from_1 { 1 ≤ worker }
    requires leads { Leads worker relay.now seat.seen }
    ensures sees { Sees seat result }
    ensures done { WasDone (HasFinished worker) result.seen }
{
    work(rt, cell, relay, &mut seat, worker, gate);
    seat
}

/// Sends the group telegrams, and listens until no worker is left.
fn sent<R: Wait, L: Link, W: Watcher>(
    rt: &R,
    cell: &Turn<Box<Site<L, W>>>,
    relay: &Relay,
    mut seat: Seat<Box<Site<L, W>>>,
    mut listener: Listener,
) -> (Seat<Box<Site<L, W>>>, Listener)
    requires of { seat.cell ≡ cell.now.id }
    requires free { seat.turn ≡ false }
    requires leads { Leads 0 relay.now seat.seen }
    requires listens { listener.router ≡ relay.now }
    ensures sees { Sees seat result.0 }
    ensures done { WasDone HasTold result.0.seen }
    ensures listens { result.1.router ≡ relay.now }
{
    send_groups(rt, cell, relay, &mut seat, &mut listener);
    listen(rt, relay, &mut listener);
    (seat, listener)
}

/// The workers from 1 to `count`, each in a thread of its own.
fn all_worked<R: Threads + Wait + Sync, L: Link + Send, W: Watcher + Send, G: Gate + Sync>(
    rt: &R,
    cell: &Turn<Box<Site<L, W>>>,
    relay: &Relay,
    mut seat: Seat<Box<Site<L, W>>>,
    count: u8,
    gate: &G,
) -> Seat<Box<Site<L, W>>>
    requires of { seat.cell ≡ cell.now.id }
    requires free { seat.turn ≡ false }
    requires some { 1 ≤ count }
    requires parts { count ≤ seat.parts }
    requires leads { Leads count relay.now seat.seen }
    ensures sees { Sees seat result }
    ensures done { AllDone count result.seen }
{
    if count == 1 {
        return worked(rt, cell, relay, seat, count, gate);
    }
    let other = cell.split(&mut seat);
    let (mut all, last) = join(
        rt,
        move || -> Seat<Box<Site<L, W>>>
            requires { IsSync R.row × IsSync G.row × (seat.cell ≡ cell.now.id) × (seat.turn ≡ false) × (1 < count) × (count ≤ seat.parts + 1) × Leads count relay.now seat.seen }
            ensures { Sees seat result × AllDone (count - 1) result.seen }
        { all_worked(rt, cell, relay, seat, count - 1, gate) },
        move || -> Seat<Box<Site<L, W>>>
            requires { (other.cell ≡ cell.now.id) × (other.turn ≡ false) × (1 < count) × Leads count relay.now other.seen }
            ensures { Sees other result × WasDone (HasFinished count) result.seen }
        { worked(rt, cell, relay, other, count, gate) },
    );
    cell.join(&mut all, last);
    all
}

/// The workers from 1 to `workers` and the group thread, each in a thread of its own, over the cell whose only seat this is. It gives back the site that they
/// leave, and who listened.
pub fn all_done<R: Threads + Wait + Sync, L: Link + Send, W: Watcher + Send, G: Gate + Sync>(
    rt: &R,
    cell: Turn<Box<Site<L, W>>>,
    first: Seat<Box<Site<L, W>>>,
    relay: &Relay,
    listener: Listener,
    workers: u8,
    gate: &G,
) -> (Site<L, W>, Listener)
    requires of { first.cell ≡ cell.id }
    requires free { first.turn ≡ false }
    requires whole { first.parts ≡ 16 }
    requires some { 1 ≤ workers }
    requires few { workers ≤ 8 }
    requires leads { Leads workers relay.now first.seen }
    requires listens { listener.router ≡ relay.now }
    ensures opening { IsPrefix cell.opening (items_of result.0) }
    ensures done { AllDone workers (items_of result.0) }
    ensures told { WasDone HasTold (items_of result.0) }
    ensures listens { result.1.router ≡ relay.now }
{
    let mut seat = first;
    let group = cell.split(&mut seat);
    let shared = &cell;
    // where no thread can be made the first comes last, when there is nothing more to wait for
    let ((last, listener), mut all) = join(
        rt,
        move || -> (Seat<Box<Site<L, W>>>, Listener)
            requires { (group.cell ≡ shared.now.id) × (group.turn ≡ false) × Leads 0 relay.now group.seen × (listener.router ≡ relay.now) }
            ensures { Sees group result.0 × WasDone HasTold result.0.seen × (result.1.router ≡ relay.entry.now) }
        { sent(rt, shared, relay, group, listener) },
        move || -> Seat<Box<Site<L, W>>>
            requires { IsSync R.row × IsSync G.row × (seat.cell ≡ shared.now.id) × (seat.turn ≡ false) × (1 ≤ workers) × (workers ≤ seat.parts) × Leads workers relay.now seat.seen }
            ensures { Sees seat result × AllDone workers result.seen }
        {
            let all = all_worked(rt, shared, relay, seat, workers, gate);
            relay.ring_last();
            all
        },
    );
    cell.join(&mut all, last);
    (Box::into_inner(cell.close(all)), listener)
}
