//! The gateway (ISO 22510, Core and Tunnelling): its end of the tunnel, the frames that wait for the bus, and those that wait for the client.

ghost use Rattle.std.specs.Prelude.{◌≡◌, ℕ, ◌+◌, ◌<◌, ◌≤◌, ◌∷◌, ◌++◌, [], option_map, option_to_list, OnOk, OnErr, IfOk, MatchOption};
ghost use Rattle.std.specs.VecDeque.{deque_len, deque_capacity};
ghost use Rattle.knx_model.specs.KnxNetIp.{Written};
ghost use Rattle.line_model.specs.Gateway.{Gateway as Known, gateway_took, gateway_expired, next_put, at_rest, closed};
ghost use Rattle.line_model.specs.GatewayEnd.{after_due};
ghost use Rattle.knx_model.specs.ApduReading.{option_map as mapped};
ghost use Rattle.knx_model.specs.DeviceSending.{first_frame};
ghost use Rattle.line_model.specs.Tunnel.{carried, heard};
ghost use Rattle.line_model.specs.World.{on_bus};
ghost use Rattle.network_sim.specs.Window.{capped};
ghost use Rattle.tunnel_sim.specs.Gateways.{IsGateway, CanCount, gateway_now, and_one, is_another, due_of, is_left, makes_one, dropped_if, joined, put_letter, put_gateway, told_letter, farewell_letter};

use crate::frames::{asked_for, on_bus};
use cemi_frames::octets_of;
use knx_model::{Datagram, IndAddr, IpFrame, Ldata, NoMemory};
use line_model::GatewayExpired;
use std::alloc::Global;
use std::collections::VecDeque;
use tunnel_gateway::GatewayEnd;

/// What the gateway had due, and did.
#[derive(Clone, Copy, Debug, Drop, PartialEq, Eq)]
pub enum Due {
    Nothing,
    /// Its outstanding request was sent again.
    Repeat,
    /// Its channel was closed.
    Closed,
}

/// What the gateway has due, and does.
#[derive(Drop)]
pub enum Expired {
    Nothing,
    Repeat(Letter),
    Closed(Letter),
}

/// What the gateway sends: octets, to an endpoint.
#[derive(Drop)]
pub struct Letter {
    pub to: u64,
    pub octets: Datagram,
}

/// A gateway: the tunnel's address, its end, the frames that wait for the bus and those that wait for the client, the oldest first; how many
/// channels it made, and how many requests it acted on.
#[derive(Drop)]
pub struct Gateway {
    pub address: IndAddr,
    pub end: GatewayEnd,
    pub bus: VecDeque<Ldata>,
    pub waiting: VecDeque<Ldata>,
    pub made: u64,
    pub acted: u64,
}

impl Gateway {
    /// A gateway without a channel, for which nothing waits.
    pub fn new(alloc: Global, address: IndAddr) -> Gateway
        ensures { IsGateway (gateway_now result) (at_rest address) }
    {
        Gateway {
            address,
            end: GatewayEnd::new(address),
            bus: VecDeque::new(alloc),
            waiting: VecDeque::new(alloc),
            made: 0,
            acted: 0,
        }
    }

    /// A frame of an endpoint comes; what is answered. At `Err` nothing has changed.
    pub fn take(
        &mut self,
        from: u64,
        frame: &IpFrame,
        now: u64,
    ) -> Result<Option<Datagram>, NoMemory>
        ensures next { OnOk result ((g : Known) → IsGateway (gateway_now self.old) g → CanCount (gateway_now self.old) → IsGateway (gateway_now self.new) (gateway_took g from now frame.now).after) }
        ensures answer { IfOk result (λ send. (g : Known) → IsGateway (gateway_now self.old) g → send ≡ option_map Written (gateway_took g from now frame.now).send) }
        ensures err { OnErr result (gateway_now self.new ≡ gateway_now self.old) }
    {
        self.bus.reserve(1)?;
        let before = self.end.endpoint();
        let took = self.end.take(from, frame, now);
        let left = is_left(before, self.end.endpoint());
        drop_if(left, &mut self.bus);
        drop_if(left, &mut self.waiting);
        join(&mut self.bus, &took.acted);
        self.made = counted(is_new_client(frame, before, from), self.made);
        self.acted = counted(took.acted.is_some(), self.acted);
        Ok(took.send)
    }

    /// Puts its oldest frame for the client, where a channel is open and no request is outstanding.
    pub fn put(&mut self, now: u64) -> Option<Letter>
        ensures next { (g : Known) → IsGateway (gateway_now self.old) g → IsGateway (gateway_now self.new) (put_gateway g now (next_put g.channel g.waiting)) }
        ensures answer { (g : Known) → IsGateway (gateway_now self.old) g → result ≡ put_letter (next_put g.channel g.waiting) }
    {
        let to = self.end.endpoint()?;
        let cemi = octets_of(self.waiting.front()?);
        let octets = self.end.put(cemi.as_slice(), now).ok()?;
        let _ = self.waiting.pop_front();
        Some(Letter { to, octets })
    }

    /// What has become due: an unacknowledged request is sent again once, and then the channel closes; it closes without its client too.
    #[tactic(auto, unfolding(line_model::specs::Gateway::gateway_expired))]
    pub fn expire(&mut self, now: u64) -> Expired
        ensures next { (g : Known) → IsGateway (gateway_now self.old) g → IsGateway (gateway_now self.new) (after_due g now (gateway_expired g now)) }
        ensures answer { (g : Known) → IsGateway (gateway_now self.old) g → result ≡ told_letter g.channel (gateway_expired g now) }
    {
        let Some(to) = self.end.endpoint() else {
            return Expired::Nothing;
        };
        match self.end.expire(now) {
            GatewayExpired::Nothing => Expired::Nothing,
            GatewayExpired::Repeat(octets) => Expired::Repeat(Letter { to, octets }),
            GatewayExpired::Closed(octets) => {
                self.bus.clear();
                self.waiting.clear();
                Expired::Closed(Letter { to, octets })
            }
        }
    }

    /// What has become due, which isn't done.
    pub fn due(&self, now: u64) -> Due
        ensures { (g : Known) → IsGateway (gateway_now self.now) g → result ≡ due_of (gateway_expired g now) }
    {
        match self.end.would_expire(now) {
            GatewayExpired::Nothing => Due::Nothing,
            GatewayExpired::Repeat(_) => Due::Repeat,
            GatewayExpired::Closed(_) => Due::Closed,
        }
    }

    /// Closes the channel, and what waits for the bus and for the client is dropped; None exactly where there was no channel.
    pub fn shut(&mut self) -> Option<Letter>
        ensures next { (g : Known) → IsGateway (gateway_now self.old) g → IsGateway (gateway_now self.new) (closed g) }
        ensures answer { (g : Known) → IsGateway (gateway_now self.old) g → result ≡ farewell_letter g.channel }
    {
        let to = self.end.endpoint()?;
        let octets = self.end.shut()?;
        self.bus.clear();
        self.waiting.clear();
        Some(Letter { to, octets })
    }

    /// The oldest frame that waits for the bus has gone over it, and its confirmation waits for the client. There is room for that.
    pub fn carried(&mut self, confirmation: Ldata)
        requires { deque_len self.old.waiting < deque_capacity self.old.waiting }
        ensures { (g : Known) → IsGateway (gateway_now self.old) g → IsGateway (gateway_now self.new) (carried g confirmation) }
    {
        let _ = self.bus.pop_front();
        let _ = self.waiting.push_back(confirmation);
    }

    /// A frame of a device comes, and waits for the client. There is room for it.
    pub fn heard(&mut self, frame: Ldata)
        requires { deque_len self.old.waiting < deque_capacity self.old.waiting }
        ensures { (g : Known) → IsGateway (gateway_now self.old) g → IsGateway (gateway_now self.new) (heard g (frame ∷ [])) }
    {
        let _ = self.waiting.push_back(frame);
    }

    /// The client's frame that goes over the bus next, as the bus carries it; None exactly where none waits.
    pub fn frame_due(&self) -> Option<Ldata>
        ensures value { result ≡ mapped (on_bus self.now.address) (first_frame self.now.bus.items) }
        ensures simulates { (g : Known) → IsGateway (gateway_now self.now) g → result ≡ mapped (on_bus g.tunnel) (first_frame g.bus) }
    {
        Some(on_bus(self.address, self.bus.front()?))
    }
}

/// Whether a channel's client is another one afterwards, or there is no channel any more.
fn is_left(before: Option<u64>, after: Option<u64>) -> bool
    ensures { result ≡ is_left before after }
{
    match (before, after) {
        (None, _) => false,
        (Some(_), None) => true,
        (Some(client), Some(other)) => client != other,
    }
}

/// Whether an endpoint isn't the client's.
fn is_another(client: Option<u64>, from: u64) -> bool
    ensures { result ≡ is_another client from }
{
    match client {
        Some(client) => client != from,
        None => true,
    }
}

/// Whether it is a connect request of an endpoint that isn't the open channel's.
fn is_new_client(frame: &IpFrame, client: Option<u64>, from: u64) -> bool
    ensures { result ≡ makes_one frame.now client from }
{
    match frame {
        IpFrame::ConnectRequest => is_another(client, from),
        _ => false,
    }
}

/// Frames that wait for a channel that was closed are dropped.
fn drop_if(left: bool, frames: &mut VecDeque<Ldata>)
    ensures items { frames.new.items ≡ dropped_if left frames.old.items }
    ensures len { deque_len frames.new ≤ deque_len frames.old }
    ensures capacity { deque_capacity frames.new ≡ deque_capacity frames.old }
{
    if left {
        frames.clear();
    }
}

/// A request that is acted on waits for the bus. There is room for it.
fn join(bus: &mut VecDeque<Ldata>, acted: &Option<Datagram>)
    requires { deque_len bus.old < deque_capacity bus.old }
    ensures { bus.new.items ≡ joined bus.old.items acted.now }
{
    if let Some(cemi) = acted {
        wait(bus, asked_for(cemi.as_slice()));
    }
}

/// A frame, where there is one, joins those that wait. There is room for it.
fn wait(frames: &mut VecDeque<Ldata>, frame: Option<Ldata>)
    requires { deque_len frames.old < deque_capacity frames.old }
    ensures { frames.new.items ≡ frames.old.items ++ option_to_list frame }
{
    if let Some(frame) = frame {
        let _ = frames.push_back(frame);
    }
}

/// One more, where there is one. A count stands still at the greatest number of 64 bits.
pub fn counted(more: bool, count: u64) -> u64
    ensures { result ≡ capped (and_one more count) }
{
    if more { count.saturating_add(1) } else { count }
}
