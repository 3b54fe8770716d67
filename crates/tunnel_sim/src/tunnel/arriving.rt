//! Datagrams that arrive at the gateway (ISO 22510, Core and Tunnelling).

ghost use Rattle.std.specs.Prelude.{◌≡◌, ◌≢◌, Option, None, OnOk, OnErr, option_map, slice_get};
ghost use Rattle.knx_model.specs.declared.frames.ip.IpFrame.{IpFrame as Frame};
ghost use Rattle.knx_model.specs.KnxNetIp.{Written};
ghost use Rattle.line_model.specs.Network.{OfSent, changed_at, once_more};
ghost use Rattle.line_model.specs.Tunnel.{Tunnel as Known, Up, UpRefused, refuses, sends_down_if, step, takes_sent, with_up};
ghost use Rattle.tunnel_sim.specs.Gateways.{CanCount, gateway_now};
ghost use Rattle.tunnel_sim.specs.Tunnels.{IsTunnel, arrival_of, tunnel_now};
ghost use Rattle.network_sim.specs.Window.{IsDeliverable};

use super::Tunnel;
use knx_model::{Datagram, IpFrame, NoMemory};
use knxnetip_frames::encode;
use line_frames::datagram_in;

impl Tunnel {
    /// The datagram of an age, which may arrive, comes to the gateway. At `Err` nothing has changed.
    pub fn up(&mut self, age: usize) -> Result<(), NoMemory>
        requires { OfSent IsDeliverable (slice_get self.old.up.kept age) }
        ensures next { OnOk result ((t : Known) → IsTunnel (tunnel_now self.old) t → CanCount (gateway_now self.old.gateway) → IsTunnel (tunnel_now self.new) (step t (Up age))) }
        ensures err { OnErr result (tunnel_now self.new ≡ tunnel_now self.old) }
    {
        self.arrive(age)?;
        self.put_next();
        Ok(())
    }

    /// The gateway answers a connect request of an age with a status other than 0, and changes nothing else.
    pub fn up_refused(&mut self, age: usize, status: u8)
        requires deliverable { OfSent IsDeliverable (slice_get self.old.up.kept age) }
        requires status { status ≢ 0 }
        ensures { (t : Known) → IsTunnel (tunnel_now self.old) t → IsTunnel (tunnel_now self.new) (step t (UpRefused age status)) }
    {
        self.refuse(age, status);
        self.put_next();
    }

    /// The gateway answers with a status other than 0.
    fn refuse(&mut self, age: usize, status: u8)
        requires deliverable { OfSent IsDeliverable (slice_get self.old.up.kept age) }
        requires status { status ≢ 0 }
        ensures { (t : Known) → IsTunnel (tunnel_now self.old) t → IsTunnel (tunnel_now self.new) (refuses (with_up t (changed_at age once_more t.network.up)) status (slice_get t.network.up age)) }
    {
        let from = self.sender(age);
        self.up.deliver(age);
        if let Some(from) = from {
            self.post(from, &refusal(status));
        }
    }

    /// The endpoint that the client's datagram of an age comes from, where it is kept.
    fn sender(&self, age: usize) -> Option<u64>
        requires { OfSent IsDeliverable (slice_get self.now.up.kept age) }
        ensures { (t : Known) → IsTunnel (tunnel_now self.now) t → result ≡ option_map (λ s. s.endpoint) (slice_get t.network.up age) }
    {
        Some(self.up.get(age)?.endpoint())
    }

    /// The gateway takes the client's datagram of an age, and answers it. At `Err` nothing has changed.
    fn arrive(&mut self, age: usize) -> Result<(), NoMemory>
        requires { OfSent IsDeliverable (slice_get self.old.up.kept age) }
        ensures next { OnOk result ((t : Known) → IsTunnel (tunnel_now self.old) t → CanCount (gateway_now self.old.gateway) → IsTunnel (tunnel_now self.new) (takes_sent (with_up t (changed_at age once_more t.network.up)) (slice_get t.network.up age))) }
        ensures err { OnErr result (tunnel_now self.new ≡ tunnel_now self.old) }
    {
        let Some((from, frame)) = self.arrival(age) else {
            self.up.deliver(age);
            return Ok(());
        };
        let send = self.gateway.take(from, &frame, self.time)?;
        self.up.deliver(age);
        self.answer(from, &send);
        Ok(())
    }

    /// The gateway sends what it answers, where it answers.
    fn answer(&mut self, to: u64, send: &Option<Datagram>)
        ensures { (t : Known) (frame : Option Frame) → IsTunnel (tunnel_now self.old) t → send.now ≡ option_map Written frame → IsTunnel (tunnel_now self.new) (sends_down_if t to frame) }
    {
        if let Some(octets) = send {
            self.post(to, octets);
        }
    }

    /// The client's datagram of an age: its endpoint and the frame that it is.
    pub fn arrival(&self, age: usize) -> Option<(u64, IpFrame)>
        requires { OfSent IsDeliverable (slice_get self.now.up.kept age) }
        ensures { (t : Known) → IsTunnel (tunnel_now self.now) t → result ≡ arrival_of (slice_get t.network.up age) }
    {
        network_sim::laws::what_is_kept_reads_alike();
        let sending = self.up.get(age)?;
        Some((sending.endpoint(), datagram_in(sending.octets())?))
    }
}

/// CONNECT_RESPONSE with an error.
fn refusal(status: u8) -> Datagram
    requires { status ≢ 0 }
    ensures { result ≡ Written (Frame.ConnectResponse 0 status None) }
{
    encode(&IpFrame::ConnectResponse {
        channel: 0,
        status,
        tunnel: None,
    })
}
