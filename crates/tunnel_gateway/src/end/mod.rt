//! The gateway's end of a tunnel (ISO 22510, Core and Tunnelling).
//!
//! ```text
//!               connect request                   put
//!  +--------+ -------------------> +------+ ---------------> +---------+
//!  | Closed |                      | Idle |                  | Waiting | --+ again after 1,000 ms,
//!  +--------+ <------------------- +------+ <--------------- +---------+ <-+ once
//!      ^       disconnect request,        its acknowledgement      |
//!      |       120,000 ms without its client                       |
//!      +-----------------------------------------------------------+
//!               the same, and 1,000 ms after the second sending
//! ```
//!
//! Closed has no channel, and Idle and Waiting have one: in Waiting a request of the gateway is outstanding. Both take the client's requests:
//! the expected number is acted on and acknowledged, the number before it is acknowledged. A connect request of the channel's endpoint is
//! answered as before; one of another endpoint closes the channel and opens the next, with both counters 0. The channels are numbered 1 to
//! 255, and then from 1 again.

ghost use Rattle.std.specs.Prelude.{◌≡◌, ◌≤◌, ◌↔◌, List, length, None, Ok, Err, OnErr};
ghost use Rattle.knx_model.specs.declared.frames.cemi.Ldata.{Ldata};
ghost use Rattle.knx_model.specs.Cemi.{Written as cemi_octets};
ghost use Rattle.knx_model.specs.KnxNetIp.{Written};
ghost use Rattle.line_model.specs.Gateway.{Gateway, Channel as Known, at_rest, gateway_took, gateway_expired, next_put, put_after, request_of, closed};
ghost use Rattle.line_model.specs.GatewayEnd.{IsEnd, TookAs, end_of, repeated_if_open, gateway_of, told, end_took, channel_put, after_put, told_due, after_due, channel_deadline, endpoint_of, farewell};
ghost use Rattle.line_model.specs.Tunnel.{HasOutstanding};

mod frames;

use crate::channel::Channel;
use knx_model::{Datagram, IndAddr, IpFrame};
use knxnetip_frames::disconnect_request;
use line_model::{GatewayExpired, GatewayTook, PutRefused};
use std::marker::Model;

/// The gateway's end of a tunnel. Endpoints of clients are numbers, and times are in milliseconds.
#[derive(Drop)]
pub struct GatewayEnd {
    tunnel: IndAddr,
    /// The number of the channel that is made next.
    next: u8,
    channel: Option<Channel>,
}

impl Model for GatewayEnd {
    ghost use Rattle.line_model.specs.GatewayEnd.{GatewayEnd as End, IsChannelNumber};

    ghost Value = { End };

    ghost view = { λ e. record { tunnel = e.tunnel; next = e.next; channel = e.channel } };

    ghost invariant = { λ e. IsChannelNumber e.next };
}

impl GatewayEnd {
    /// A gateway without a channel, whose tunnel has this individual address.
    pub fn new(tunnel: IndAddr) -> GatewayEnd
        ensures { result ≡ end_of (at_rest tunnel) }
    {
        GatewayEnd {
            tunnel,
            next: 1,
            channel: None,
        }
    }

    /// A law of the type: its channels have the numbers 1 to 255.
    pub fn has_numbers(&self)
        ensures { IsEnd self.now }
    {
        if let Some(channel) = &self.channel {
            let _ = channel.number();
        }
    }

    /// The endpoint of the channel's client; None exactly where there is no channel.
    pub fn endpoint(&self) -> Option<u64>
        ensures { result ≡ endpoint_of self.now.channel }
    {
        let channel = self.channel.as_ref()?;
        Some(channel.endpoint())
    }

    /// Takes a frame of an endpoint. It isn't looked at whether a wait has passed.
    pub fn take(&mut self, from: u64, frame: &IpFrame, now: u64) -> GatewayTook
        ensures answer { result ≡ told (end_took self.old from now frame.now) }
        ensures next { self.new ≡ end_of (end_took self.old from now frame.now).after }
        ensures simulates { (g : Gateway) → end_of g ≡ self.old → TookAs (gateway_took g from now frame.now) result self.new }
    {
        self.hear(from, now);
        self.act(from, frame, now)
    }

    /// Puts a request with 1 to 290 cEMI octets. Busy exactly where a request is outstanding, and NotUp exactly where there is no channel;
    /// then nothing changes.
    pub fn put(&mut self, cemi: &[u8], now: u64) -> Result<Datagram, PutRefused>
        requires least { 1 ≤ length cemi.now }
        requires most { length cemi.now ≤ 290 }
        ensures answer { result ≡ channel_put self.old.channel cemi.now }
        ensures busy { (result ≡ Err PutRefused.Busy) ↔ HasOutstanding self.old.channel }
        ensures not_up { (result ≡ Err PutRefused.NotUp) ↔ (self.old.channel ≡ None) }
        ensures next { self.new ≡ record self.old { channel = after_put self.old.channel cemi.now now } }
        ensures refused { OnErr result (self.new ≡ self.old) }
        ensures simulates { (g : Gateway) (c : Known) (frame : Ldata) (frames rest : List Ldata) → end_of g ≡ self.old → next_put g.channel frames ≡ Some (c, frame) → cemi.now ≡ cemi_octets frame
            → (result ≡ Ok (Written (request_of c (cemi_octets frame)))) × (self.new ≡ end_of (put_after g c frame rest now)) }
    {
        match &mut self.channel {
            Some(channel) => channel.put(cemi, now),
            None => Err(PutRefused::NotUp),
        }
    }

    /// What has become due: an unacknowledged request is sent again once, and then the channel closes; it closes without its client too.
    #[tactic(auto, unfolding(line_model::specs::Gateway::gateway_expired))]
    pub fn expire(&mut self, now: u64) -> GatewayExpired
        ensures answer { result ≡ told_due (gateway_expired (gateway_of self.old) now) }
        ensures next { self.new ≡ end_of (after_due (gateway_of self.old) now (gateway_expired (gateway_of self.old) now)) }
        ensures simulates { (g : Gateway) → end_of g ≡ self.old
            → (result ≡ told_due (gateway_expired g now)) × (self.new ≡ end_of (after_due g now (gateway_expired g now))) }
    {
        let expired = self.would_expire(now);
        match &expired {
            GatewayExpired::Nothing => {}
            GatewayExpired::Repeat(_) => self.repeat(now),
            GatewayExpired::Closed(_) => self.channel = None,
        }
        expired
    }

    /// What `expire` would answer at this time; nothing changes.
    #[tactic(auto, unfolding(line_model::specs::Gateway::gateway_expired))]
    pub fn would_expire(&self, now: u64) -> GatewayExpired
        ensures value { result ≡ told_due (gateway_expired (gateway_of self.now) now) }
        ensures simulates { (g : Gateway) → end_of g ≡ self.now → result ≡ told_due (gateway_expired g now) }
    {
        match &self.channel {
            Some(channel) => channel.would_expire(now),
            None => GatewayExpired::Nothing,
        }
    }

    /// Closes the channel, and gives the disconnect request that tells its client; None exactly where there was no channel.
    pub fn shut(&mut self) -> Option<Datagram>
        ensures answer { result ≡ farewell self.old.channel }
        ensures next { self.new ≡ record self.old { channel = None } }
        ensures simulates { (g : Gateway) → end_of g ≡ self.old → (result ≡ farewell g.channel) × (self.new ≡ end_of (closed g)) }
    {
        let channel = self.channel.take()?;
        Some(disconnect_request(channel.number()))
    }

    /// The nearest time at which one of its waits has passed; None exactly where there is no channel, since none runs then.
    pub fn deadline(&self) -> Option<u64>
        ensures { result ≡ channel_deadline self.now.channel }
    {
        let channel = self.channel.as_ref()?;
        Some(channel.deadline())
    }

    /// The outstanding request, if any, is sent again.
    fn repeat(&mut self, now: u64)
        ensures { self.new ≡ record self.old { channel = repeated_if_open self.old.channel now } }
    {
        match &mut self.channel {
            Some(channel) => channel.repeat(now),
            None => {}
        }
    }
}
