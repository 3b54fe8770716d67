//! A channel of the gateway (ISO 22510, Core and Tunnelling).

ghost use Rattle.std.specs.Prelude.{◌≡◌, ◌≤◌, ◌==◌, length, Some, Ok, Err, if◌then◌else◌};
ghost use Rattle.knx_model.specs.declared.frames.ip.IpFrame.TheVariants.{DisconnectRequest};
ghost use Rattle.knx_model.specs.Connection.{wait_end};
ghost use Rattle.line_model.specs.Gateway.{Gateway, Closing, Repeat, client_wait, new_channel, names, hears, next_number, settles, request_took, request_of, channel_expired};
ghost use Rattle.line_model.specs.GatewayEnd.{IsChannelNumber, told, told_due, channel_put, after_put, repeated_request, request_deadline};

use crate::answers::{answered, dropped, request};
use crate::request::Request;
use crate::wait::CLIENT_WAIT_MS;
use knx_model::{Datagram, end_of, has_passed};
use knxnetip_frames::{NO_ERROR, acknowledgement, disconnect_request};
use line_model::{GatewayExpired, GatewayTook, PutRefused};
use std::marker::Model;

/// An open channel: the endpoint whose connect request made it, its number, the number of the client's next request, that of the own
/// request that is outstanding or else of the next one, that request, and when a datagram of the client came last.
#[derive(Drop)]
pub struct Channel {
    endpoint: u64,
    number: u8,
    expected: u8,
    own: u8,
    outstanding: Option<Request>,
    heard: u64,
}

impl Model for Channel {
    ghost use Rattle.line_model.specs.Gateway.{Channel as Known};
    ghost use Rattle.line_model.specs.GatewayEnd.{IsChannelNumber};

    ghost Value = { Known };

    ghost view = { λ c. record { endpoint = c.endpoint; number = c.number; expected = c.expected; own = c.own; outstanding = c.outstanding; heard = c.heard } };

    ghost invariant = { λ c. IsChannelNumber c.number };
}

impl Channel {
    /// A new channel: both its counters are 0.
    pub fn new(endpoint: u64, number: u8, now: u64) -> Channel
        requires { IsChannelNumber number }
        ensures { result ≡ new_channel endpoint number now }
    {
        Channel {
            endpoint,
            number,
            expected: 0,
            own: 0,
            outstanding: None,
            heard: now,
        }
    }

    /// The endpoint of its client.
    pub fn endpoint(&self) -> u64
        ensures { result ≡ self.now.endpoint }
    {
        self.endpoint
    }

    /// Its number.
    pub fn number(&self) -> u8
        ensures value { result ≡ self.now.number }
        ensures range { IsChannelNumber result }
    {
        self.number
    }

    /// Whether it is this endpoint's and has this number.
    pub fn is(&self, endpoint: u64, number: u8) -> bool
        ensures { result ≡ names endpoint number (Some self.now) }
    {
        self.endpoint == endpoint && self.number == number
    }

    /// A datagram of an endpoint came: its client's begins its wait anew.
    pub fn hear(&mut self, endpoint: u64, now: u64)
        ensures { Some self.new ≡ hears (Some self.old) endpoint now }
    {
        if self.endpoint == endpoint {
            self.heard = now;
        }
    }

    /// A request of the client: the expected number is acted on and acknowledged, the number before it is acknowledged, and another is
    /// dropped.
    pub fn take_request(&mut self, number: u8, cemi: &Datagram) -> GatewayTook
        ensures answer { (g : Gateway) → result ≡ told (request_took g (Some self.old) number cemi.now) }
        ensures next { self.new ≡ (if number == self.old.expected then record self.old { expected = next_number self.old.expected } else self.old) }
    {
        if number == self.expected {
            self.expected = next(number);
            GatewayTook {
                send: Some(acknowledgement(self.number, number)),
                acted: Some(cemi.copied()),
            }
        } else if next(number) == self.expected {
            answered(acknowledgement(self.number, number))
        } else {
            dropped()
        }
    }

    /// An acknowledgement of the client: one with status 0 and the number of the outstanding request settles it.
    pub fn take_ack(&mut self, number: u8, status: u8)
        ensures { self.new ≡ settles self.old number status }
    {
        if self.outstanding.is_some() && number == self.own && status == NO_ERROR {
            self.own = next(number);
            self.outstanding = None;
        }
    }

    /// Puts a request, where none is outstanding.
    pub fn put(&mut self, cemi: &[u8], now: u64) -> Result<Datagram, PutRefused>
        requires least { 1 ≤ length cemi.now }
        requires most { length cemi.now ≤ 290 }
        ensures answer { result ≡ channel_put (Some self.old) cemi.now }
        ensures next { Some self.new ≡ after_put (Some self.old) cemi.now now }
    {
        if self.outstanding.is_some() {
            return Err(PutRefused::Busy);
        }
        self.outstanding = Some(Request::new(cemi, now));
        Ok(request(self.number, self.own, Datagram::from_slice(cemi)))
    }

    /// What would become due at this time; nothing changes.
    pub fn would_expire(&self, now: u64) -> GatewayExpired
        ensures { result ≡ told_due (channel_expired (Some self.now) now) }
    {
        if has_passed(CLIENT_WAIT_MS, self.heard, now) {
            return GatewayExpired::Closed(disconnect_request(self.number));
        }
        match &self.outstanding {
            Some(outstanding) if outstanding.is_due(now) => self.would_repeat(outstanding),
            _ => GatewayExpired::Nothing,
        }
    }

    /// A request whose wait has passed is sent again once, and then the channel closes.
    fn would_repeat(&self, outstanding: &Request) -> GatewayExpired
        ensures { result ≡ told_due (if outstanding.now.repeated then Closing (DisconnectRequest self.now.number) else Repeat (request_of self.now outstanding.now.frame)) }
    {
        if outstanding.is_repeated() {
            GatewayExpired::Closed(disconnect_request(self.number))
        } else {
            GatewayExpired::Repeat(request(self.number, self.own, outstanding.cemi()))
        }
    }

    /// The outstanding request is sent again.
    pub fn repeat(&mut self, now: u64)
        ensures { self.new ≡ repeated_request self.old self.old.outstanding now }
    {
        if let Some(outstanding) = &mut self.outstanding {
            outstanding.repeat(now);
        }
    }

    /// The nearest time at which one of its waits has passed.
    pub fn deadline(&self) -> u64
        ensures { result ≡ request_deadline self.now.outstanding (wait_end client_wait self.now.heard) }
    {
        let end = end_of(CLIENT_WAIT_MS, self.heard);
        match &self.outstanding {
            Some(outstanding) => outstanding.deadline(end),
            None => end,
        }
    }
}

/// The number that follows: a sequence counter has eight bits.
fn next(number: u8) -> u8
    ensures { result ≡ next_number number }
{
    number.wrapping_add(1)
}
