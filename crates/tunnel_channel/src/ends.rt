//! What the client knows of its channel.

ghost use Rattle.std.specs.Prelude.{◌≡◌, ◌<◌, ◌||◌, Some};
ghost use Rattle.std.specs.Result.{result_ok, result_err};
ghost use Rattle.knx_model.specs.declared.frames.ip.IpFrame.TheVariants.{StateRequest, DisconnectRequest};
ghost use Rattle.knx_model.specs.KnxNetIp.{Written};
ghost use Rattle.line_model.specs.ClientEnd.{new_channel, is_given_up, is_dead, open_expired, repeat_or_beat, earlier_of, beat_end, request_end, repeated, beaten, most_unanswered, put_octets, put_in_channel, with_request, IsCemi};
ghost use Rattle.line_model.specs.ClientFrames.{is_awaited, is_acknowledged, acknowledged, delivered, answered};

use crate::request::Request;
use crate::wait::{HEARTBEAT_PAUSE_MS, HEARTBEAT_WAIT_MS};
use knx_model::{Datagram, IpFrame, earlier, end_of, has_passed};
use knxnetip_frames::encode;
use line_model::{ChannelExpired, PutRefused};
use std::marker::Model;

/// How many heartbeats in turn may have no answer before the channel is lost.
const MOST_UNANSWERED: u8 = 3;

/// What the client knows of its channel: its number, the number of the gateway's next request, the number of the own request that is
/// outstanding or else of the next one, that request, how many heartbeats in turn have no answer, and when the last heartbeat was sent
/// or, before the first, the channel came up.
#[derive(Drop)]
pub struct Ends {
    pub channel: u8,
    pub expected: u8,
    pub number: u8,
    request: Request,
    unanswered: u8,
    beat: u64,
}

impl Model for Ends {
    ghost use Rattle.line_model.specs.ClientEnd.{OpenEnd};

    ghost Value = { OpenEnd };

    ghost use Rattle.tunnel_channel.specs.Request.{outstanding};

    ghost view = { λ e. record { channel = e.channel; expected = e.expected; number = e.number; request = outstanding e.request; unanswered = e.unanswered; beat = e.beat } };
}

impl Ends {
    /// A channel that came up.
    pub fn new(channel: u8, now: u64) -> Ends
        ensures { result ≡ new_channel channel now }
    {
        Ends {
            channel,
            expected: 0,
            number: 0,
            request: Request::Free,
            unanswered: 0,
            beat: now,
        }
    }

    /// Whether the time alone has ended the channel.
    pub fn is_over(&self, now: u64) -> bool
        ensures { result ≡ (is_given_up self.now.request now || is_dead self.now now) }
    {
        self.request.is_given_up(now) || self.is_dead(now)
    }

    fn is_dead(&self, now: u64) -> bool
        ensures { result ≡ is_dead self.now now }
    {
        self.unanswered >= MOST_UNANSWERED && has_passed(HEARTBEAT_WAIT_MS, self.beat, now)
    }

    /// Why a request can't be put now.
    pub fn refuses(&self) -> Option<PutRefused>
        ensures { result ≡ put_in_channel (Some self.now) }
    {
        if self.request.is_free() {
            None
        } else {
            Some(PutRefused::Busy)
        }
    }

    /// Whether the answer to a heartbeat is awaited.
    pub fn is_awaited(&self, now: u64) -> bool
        ensures { result ≡ is_awaited self.now now }
    {
        self.unanswered != 0 && !has_passed(HEARTBEAT_WAIT_MS, self.beat, now)
    }

    /// Whether an acknowledgement is that of the outstanding request.
    pub fn is_acknowledged(&self, channel: u8, number: u8, status: u8) -> bool
        ensures { result ≡ is_acknowledged self.now channel number status }
    {
        channel == self.channel && number == self.number && status == 0 && !self.request.is_free()
    }

    /// What has become due.
    pub fn expired(&self, now: u64) -> ChannelExpired
        ensures { result ≡ open_expired self.now now }
    {
        if self.request.is_given_up(now) {
            ChannelExpired::Lost
        } else if self.is_dead(now) {
            ChannelExpired::Dead
        } else {
            match self.request.repeat_due(now) {
                Some(datagram) => ChannelExpired::Repeat(datagram),
                None if has_passed(HEARTBEAT_PAUSE_MS, self.beat, now) => {
                    ChannelExpired::Beat(self.heartbeat())
                }
                None => ChannelExpired::Nothing,
            }
        }
    }

    /// The nearest time at which something becomes due.
    pub fn deadline(&self) -> u64
        ensures { result ≡ earlier_of (request_end self.now.request) (beat_end self.now) }
    {
        let wait = if self.unanswered >= MOST_UNANSWERED {
            HEARTBEAT_WAIT_MS
        } else {
            HEARTBEAT_PAUSE_MS
        };
        let beat = end_of(wait, self.beat);
        match self.request.deadline() {
            Some(time) => earlier(time, beat),
            None => beat,
        }
    }

    /// The heartbeat, a connection state request.
    fn heartbeat(&self) -> Datagram
        ensures { result ≡ Written (StateRequest self.now.channel) }
    {
        encode(&IpFrame::StateRequest {
            channel: self.channel,
        })
    }

    /// Sends a request, and gives its datagram. Busy exactly where one is outstanding; then nothing changes.
    pub fn put(&mut self, cemi: &[u8], now: u64) -> Result<Datagram, PutRefused>
        requires { IsCemi cemi.now }
        ensures answer { result_ok result ≡ put_octets (Some self.old) cemi.now }
        ensures refused { result_err result ≡ put_in_channel (Some self.old) }
        ensures next { self.new ≡ with_request cemi.now now self.old }
    {
        if !self.request.is_free() {
            return Err(PutRefused::Busy);
        }
        let datagram = encode(&IpFrame::TunnellingRequest {
            channel: self.channel,
            number: self.number,
            cemi: Datagram::from_slice(cemi),
        });
        self.request = Request::Once {
            datagram: datagram.copied(),
            since: now,
        };
        Ok(datagram)
    }

    /// After the outstanding request was sent once more.
    pub fn repeated(&mut self, now: u64)
        ensures { self.new ≡ repeated now self.old }
    {
        self.request = Request::Again { since: now };
    }

    /// After a heartbeat was sent.
    pub fn beaten(&mut self, now: u64)
        requires { self.old.unanswered < most_unanswered }
        ensures { self.new ≡ beaten now self.old }
    {
        self.unanswered += 1;
        self.beat = now;
    }

    /// After the outstanding request was acknowledged.
    pub fn acknowledged(&mut self)
        ensures { self.new ≡ acknowledged self.old }
    {
        self.number = self.number.wrapping_add(1);
        self.request = Request::Free;
    }

    /// After the gateway's next request came.
    pub fn delivered(&mut self)
        ensures { self.new ≡ delivered self.old }
    {
        self.expected = self.expected.wrapping_add(1);
    }

    /// After a heartbeat was answered.
    pub fn answered(&mut self)
        ensures { self.new ≡ answered self.old }
    {
        self.unanswered = 0;
    }
}
