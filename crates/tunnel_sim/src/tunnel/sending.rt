//! What the gateway does of itself, and what the bus brings it (ISO 22510, Tunnelling).

ghost use Rattle.std.specs.Prelude.{◌≡◌, ◌<◌, [], ◌∷◌, Some};
ghost use Rattle.std.specs.VecDeque.{deque_len, deque_capacity};
ghost use Rattle.knx_model.specs.declared.frames.ip.IpFrame.{IpFrame as Frame};
ghost use Rattle.knx_model.specs.KnxNetIp.{Written};
ghost use Rattle.line_model.specs.Gateway.{gateway_expired};
ghost use Rattle.line_model.specs.Tunnel.{Tunnel as Known, Carried, Heard, Repeat, Close, Elsewhere, closes, puts_next, sends_down, step};
ghost use Rattle.line_model.specs.World.{heard};
ghost use Rattle.tunnel_sim.specs.Gateways.{due_of};
ghost use Rattle.tunnel_sim.specs.Tunnels.{IsTunnel, at_gateway, tunnel_now};

use super::Tunnel;
use crate::gateway::{Due, Expired};
use knx_model::{Datagram, Ldata};

/// Whether the gateway hears a device's frame.
#[derive(Clone, Copy, Debug, Drop, PartialEq, Eq)]
pub enum AtGateway {
    Comes,
    IsLost,
}

impl Tunnel {
    /// The oldest frame that waits for the bus has gone over it, and its confirmation waits for the client. There is room for that.
    pub fn carried(&mut self, confirmation: Ldata)
        requires { deque_len self.old.gateway.waiting < deque_capacity self.old.gateway.waiting }
        ensures { (t : Known) → IsTunnel (tunnel_now self.old) t → IsTunnel (tunnel_now self.new) (step t (Carried confirmation)) }
    {
        self.gateway.carried(confirmation);
        self.put_next();
    }

    /// A frame of a device comes to the gateway, or is lost for it. There is room for it.
    pub fn hear(&mut self, at: AtGateway, frame: Ldata)
        requires { deque_len self.old.gateway.waiting < deque_capacity self.old.gateway.waiting }
        ensures { (t : Known) → IsTunnel (tunnel_now self.old) t → IsTunnel (tunnel_now self.new) (step t (heard (at_gateway at) (Some frame))) }
    {
        match at {
            AtGateway::Comes => self.heard(frame),
            AtGateway::IsLost => self.elsewhere(),
        }
    }

    /// A frame of a device comes to the gateway. There is room for it.
    fn heard(&mut self, frame: Ldata)
        requires { deque_len self.old.gateway.waiting < deque_capacity self.old.gateway.waiting }
        ensures { (t : Known) → IsTunnel (tunnel_now self.old) t → IsTunnel (tunnel_now self.new) (step t (Heard (frame ∷ []))) }
    {
        self.gateway.heard(frame);
        self.put_next();
    }

    /// Something happens to a device alone.
    pub fn elsewhere(&mut self)
        ensures { (t : Known) → IsTunnel (tunnel_now self.old) t → IsTunnel (tunnel_now self.new) (step t Elsewhere) }
    {
        self.put_next();
    }

    /// What the gateway has due, it does: it sends its outstanding request again, or closes its channel.
    pub fn expire(&mut self) -> Due
        ensures answer { (t : Known) → IsTunnel (tunnel_now self.old) t → result ≡ due_of (gateway_expired t.gateway t.now) }
        ensures nothing { result ≡ Due.Nothing → (t : Known) → IsTunnel (tunnel_now self.old) t → IsTunnel (tunnel_now self.new) t }
        ensures repeats { result ≡ Due.Repeat → (t : Known) → IsTunnel (tunnel_now self.old) t → IsTunnel (tunnel_now self.new) (step t Repeat) }
        ensures closes { result ≡ Due.Closed → (t : Known) → IsTunnel (tunnel_now self.old) t → IsTunnel (tunnel_now self.new) (step t Close) }
    {
        tunnel_gateway::laws::what_is_due_happens_in_the_tunnel();
        match self.gateway.expire(self.time) {
            Expired::Nothing => Due::Nothing,
            Expired::Repeat(letter) => {
                self.post(letter.to, &letter.octets);
                self.put_next();
                Due::Repeat
            }
            Expired::Closed(letter) => {
                self.post(letter.to, &letter.octets);
                self.put_next();
                Due::Closed
            }
        }
    }

    /// The gateway closes its channel, where one is open.
    pub fn close(&mut self)
        ensures { (t : Known) → IsTunnel (tunnel_now self.old) t → IsTunnel (tunnel_now self.new) (step t Close) }
    {
        self.say_farewell();
        self.put_next();
    }

    /// The gateway closes its channel, where one is open, and tells its client.
    fn say_farewell(&mut self)
        ensures { (t : Known) → IsTunnel (tunnel_now self.old) t → IsTunnel (tunnel_now self.new) (closes t t.gateway.channel) }
    {
        if let Some(letter) = self.gateway.shut() {
            self.post(letter.to, &letter.octets);
        }
    }

    /// The gateway puts its oldest frame for the client, where a channel is open and no request is outstanding.
    pub(super) fn put_next(&mut self)
        ensures { (t : Known) → IsTunnel (tunnel_now self.old) t → IsTunnel (tunnel_now self.new) (puts_next t) }
    {
        if let Some(letter) = self.gateway.put(self.time) {
            self.post(letter.to, &letter.octets);
        }
    }

    /// The gateway sends a datagram to an endpoint.
    pub(super) fn post(&mut self, to: u64, octets: &Datagram)
        ensures { (t : Known) (frame : Frame) → IsTunnel (tunnel_now self.old) t → octets.now ≡ Written frame → IsTunnel (tunnel_now self.new) (sends_down t to frame) }
    {
        self.down.push(octets.as_slice(), to, self.gateway.made);
    }
}
