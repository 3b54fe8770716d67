//! What the script calls for directly after an event.

ghost use Rattle.std.specs.Prelude.{◌≡◌, ◌+◌, ◌≤◌, [], ◌++◌, drop, map, option_map, option_to_list, OnOk, vec_len, vec_capacity};
ghost use Rattle.std.specs.List.{filter};
ghost use Rattle.line_model.specs.Owed.{is_possible};
ghost use Rattle.line_model.specs.World.{World};
ghost use Rattle.line_sim.specs.Line.{AreCounted, IsNow};
ghost use Rattle.bus_sim.specs.Begun.{mode_of};
ghost use Rattle.bus_sim.specs.Owing.{LetsClient, all_caused, first_of, meant};

use crate::clients::Clients;
use crate::reaching::again_down;
use knx_model::NoMemory;
use line_sim::Line;
use std::alloc::Global;
use std::marker::Model;

/// What the script calls for, but for power that returns: that comes at once.
#[derive(Clone, Copy, Drop)]
pub enum Owed {
    /// The client's datagram of this number comes to the gateway again.
    DeliverAgain(u64),
    /// The gateway's datagram of this number comes to the client again.
    ReachAgain(u64),
    /// A device gets its last frame again.
    BringAgain(u16),
    /// A device closes its connection.
    ConnectionCloses(u16),
    /// The gateway closes its channel.
    ChannelCloses,
}

/// What an event calls for: at most two things, in this order.
#[derive(Clone, Copy, Drop)]
pub struct Caused {
    pub first: Option<Owed>,
    pub second: Option<Owed>,
}

/// Nothing.
pub const NOTHING: Caused = Caused {
    first: None,
    second: None,
};

/// The most that an event calls for.
const MOST: usize = 2;

/// What is called for and hasn't happened yet, the first one first.
#[derive(Drop)]
pub struct Owing {
    items: Vec<Owed>,
}

impl Model for Owing {
    ghost use Rattle.std.specs.Prelude.{◌-◌, map, vec_len, vec_capacity};
    ghost use Rattle.bus_sim.specs.Owing.{OwingNow, meant};

    ghost Value = { OwingNow };

    ghost view = { λ o. record { list = map meant o.items.items; room = vec_capacity o.items - vec_len o.items } };
}

impl Owing {
    /// Nothing is called for. It takes no memory.
    pub fn new(alloc: Global) -> Owing
        ensures { result.list ≡ [] }
    {
        Owing {
            items: Vec::new(alloc),
        }
    }

    /// Takes memory for what one event may call for.
    pub fn reserve(&mut self) -> Result<(), NoMemory>
        ensures list { self.new.list ≡ self.old.list }
        ensures room { OnOk result (2 ≤ self.new.room) }
    {
        self.items.reserve(MOST)?;
        Ok(())
    }

    /// What comes first.
    pub fn first(&self) -> Option<Owed>
        ensures { option_map meant result ≡ first_of self.now.list }
    {
        self.items.first().copied()
    }

    /// An event of the line met what came first, where there was anything, and calls for more. Of all that what isn't possible any more is dropped.
    pub fn meet(&mut self, caused: Caused, line: &Line, clients: Clients)
        requires { 2 ≤ self.old.room }
        ensures { (w : World) → IsNow line.now w → AreCounted w → self.new.list ≡ filter (is_possible (mode_of clients) w) (drop 1 self.old.list ++ all_caused caused) }
    {
        if !self.items.is_empty() {
            self.items.remove(0);
        }
        join(&mut self.items, caused);
        drop_impossible(&mut self.items, line, clients);
    }

    /// Nothing of it was met, since the client did something or power returned: what isn't possible any more is dropped. The client may go before
    /// what comes first.
    pub fn wait(&mut self, line: &Line, clients: Clients)
        ensures lets { LetsClient self.old.list }
        ensures list { (w : World) → IsNow line.now w → AreCounted w → self.new.list ≡ filter (is_possible (mode_of clients) w) self.old.list }
    {
        drop_impossible(&mut self.items, line, clients);
    }
}

/// All that an event calls for comes behind the others. There is room for it.
fn join(items: &mut Vec<Owed>, caused: Caused)
    requires { vec_len items.old + 2 ≤ vec_capacity items.old }
    ensures { map meant items.new.items ≡ map meant items.old.items ++ all_caused caused }
{
    join_one(items, caused.first);
    join_one(items, caused.second);
}

fn join_one(items: &mut Vec<Owed>, owed: Option<Owed>)
    requires { vec_len items.old + 1 ≤ vec_capacity items.old }
    ensures items { items.new.items ≡ items.old.items ++ option_to_list owed }
    ensures len { vec_len items.new ≤ vec_len items.old + 1 }
    ensures capacity { vec_capacity items.old ≤ vec_capacity items.new }
{
    if let Some(owed) = owed {
        let _ = items.push(owed);
    }
}

/// What isn't possible any more is dropped.
fn drop_impossible(items: &mut Vec<Owed>, line: &Line, clients: Clients)
    ensures { (w : World) → IsNow line.now w → AreCounted w → map meant items.new.items ≡ filter (is_possible (mode_of clients) w) (map meant items.old.items) }
{
    items.retain(|owed| is_possible(line, clients, *owed));
}

/// Whether it can still happen.
fn is_possible(line: &Line, clients: Clients, owed: Owed) -> bool
    ensures { (w : World) → IsNow line.now w → AreCounted w → result ≡ is_possible (mode_of clients) w (meant owed) }
{
    match owed {
        Owed::DeliverAgain(number) => line.again_up(number).is_some(),
        Owed::ReachAgain(number) => again_down(line, clients, number).is_some(),
        Owed::BringAgain(device) => line.last(device).is_some(),
        Owed::ConnectionCloses(device) => line.is_connected(device),
        Owed::ChannelCloses => true,
    }
}
