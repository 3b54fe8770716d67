//! The tunnel: the client's endpoint, the network, the gateway and the time (ISO 22510, Core and Tunnelling; UDP over IPv4).

ghost use Rattle.std.specs.Prelude.{◌≡◌, ◌-◌, ◌<◌, min, IfOk, slice_get};
ghost use Rattle.line_model.specs.Network.{OfSent};
ghost use Rattle.line_model.specs.Tunnel.{Tunnel as Known, Send, From, Renew, Down, LoseUp, LoseDown, Pass, fresh, step};
ghost use Rattle.tunnel_sim.specs.Gateways.{greatest_count};
ghost use Rattle.tunnel_sim.specs.Tunnels.{IsTunnel, tunnel_now, greatest_endpoint};
ghost use Rattle.network_sim.specs.Window.{IsDeliverable};

mod arriving;
mod asked;
mod sending;

use crate::gateway::Gateway;
use knx_model::{Datagram, IndAddr, NoMemory};
use network_sim::Sendings;
pub use sending::AtGateway;
use std::alloc::Global;

/// The tunnel's address where none is given: 1.1.255.
pub const DEFAULT_TUNNEL: IndAddr = IndAddr { raw: 0x11FF };

/// A tunnel: the client's present endpoint, the datagrams of the client and those of the gateway, the gateway, and the time in milliseconds.
#[derive(Drop)]
pub struct Tunnel {
    pub present: u64,
    pub up: Sendings,
    pub down: Sendings,
    pub gateway: Gateway,
    pub time: u64,
}

impl Tunnel {
    /// No channel, nothing sent, and no frame that waits. It takes the network's memory.
    pub fn new(alloc: Global, address: IndAddr) -> Result<Tunnel, NoMemory>
        ensures { IfOk result (λ made. IsTunnel (tunnel_now made) (fresh address)) }
    {
        Ok(Tunnel {
            present: 0,
            up: Sendings::new(alloc)?,
            down: Sendings::new(alloc)?,
            gateway: Gateway::new(alloc, address),
            time: 0,
        })
    }

    /// The client sends a datagram.
    pub fn send(&mut self, octets: &[u8])
        ensures { (t : Known) → IsTunnel (tunnel_now self.old) t → IsTunnel (tunnel_now self.new) (step t (Send octets.now)) }
    {
        self.up.push(octets, self.present, self.gateway.made);
        self.put_next();
    }

    /// A client at this endpoint, from now on the present one, sends a datagram.
    pub fn send_from(&mut self, endpoint: u64, octets: &[u8])
        ensures { (t : Known) → IsTunnel (tunnel_now self.old) t → IsTunnel (tunnel_now self.new) (step t (From endpoint octets.now)) }
    {
        self.present = endpoint;
        self.up.push(octets, endpoint, self.gateway.made);
        self.put_next();
    }

    /// The client takes the next endpoint.
    pub fn renew(&mut self)
        requires { self.old.present < greatest_endpoint }
        ensures { (t : Known) → IsTunnel (tunnel_now self.old) t → IsTunnel (tunnel_now self.new) (step t Renew) }
    {
        self.present += 1;
        self.put_next();
    }

    /// The client gets the datagram of an age, which may arrive; its octets.
    pub fn down(&mut self, age: usize) -> Datagram
        requires { OfSent IsDeliverable (slice_get self.old.down.kept age) }
        ensures next { (t : Known) → IsTunnel (tunnel_now self.old) t → IsTunnel (tunnel_now self.new) (step t (Down age)) }
        ensures got { (t : Known) → IsTunnel (tunnel_now self.old) t → OfSent (λ s. s.octets ≡ result) (slice_get t.network.down age) }
    {
        let octets = self.octets(age);
        self.down.deliver(age);
        self.put_next();
        octets
    }

    /// The octets of the gateway's datagram of an age.
    fn octets(&self, age: usize) -> Datagram
        requires { OfSent IsDeliverable (slice_get self.now.down.kept age) }
        ensures { (t : Known) → IsTunnel (tunnel_now self.now) t → OfSent (λ s. s.octets ≡ result) (slice_get t.network.down age) }
    {
        network_sim::laws::what_is_kept_reads_alike();
        match self.down.get(age) {
            Some(sending) => Datagram::from_slice(sending.octets()),
            None => Datagram::new(),
        }
    }

    /// The endpoint that the gateway's datagram of an age goes to.
    pub fn addressee(&self, age: usize) -> u64
        requires { OfSent IsDeliverable (slice_get self.now.down.kept age) }
        ensures { (t : Known) → IsTunnel (tunnel_now self.now) t → OfSent (λ s. s.endpoint ≡ result) (slice_get t.network.down age) }
    {
        match self.down.get(age) {
            Some(sending) => sending.endpoint(),
            None => 0,
        }
    }

    /// The client's datagram of an age is lost.
    pub fn lose_up(&mut self, age: usize)
        ensures { (t : Known) → IsTunnel (tunnel_now self.old) t → IsTunnel (tunnel_now self.new) (step t (LoseUp age)) }
    {
        self.up.lose(age);
        self.put_next();
    }

    /// The gateway's datagram of an age is lost.
    pub fn lose_down(&mut self, age: usize)
        ensures { (t : Known) → IsTunnel (tunnel_now self.old) t → IsTunnel (tunnel_now self.new) (step t (LoseDown age)) }
    {
        self.down.lose(age);
        self.put_next();
    }

    /// So many milliseconds pass, but none beyond the greatest time; how many passed.
    pub fn pass(&mut self, ms: u64) -> u64
        ensures value { result ≡ min ms (greatest_count - self.old.time) }
        ensures next { (t : Known) → IsTunnel (tunnel_now self.old) t → IsTunnel (tunnel_now self.new) (step t (Pass result)) }
    {
        let passed = ms.min(u64::MAX - self.time);
        self.time += passed;
        self.put_next();
        passed
    }
}
