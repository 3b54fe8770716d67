//! The client's end of a tunnel.

ghost use Rattle.std.specs.Prelude.{◌≡◌, ◌↔◌, IsTrue, true, is_some};
ghost use Rattle.std.specs.Result.{result_ok, result_err};
ghost use Rattle.knx_model.specs.KnxNetIp.{Written};
ghost use Rattle.knx_model.specs.declared.frames.ip.IpFrame.TheVariants.{ConnectRequest};
ghost use Rattle.line_model.specs.ClientEnd.{Idle, Seeking, MayConnect, IsCemi, open_end, channel_put, put_refused, after_put, channel_expired, after_expired, channel_deadline, channel_left, after_leave, is_over, lost};
ghost use Rattle.line_model.specs.ClientFrames.{HasTunnelIfUp, channel_took, after_took};
ghost use Rattle.tunnel_channel.specs.Follows.{NewFollows, ConnectFollows, PutFollows, TakeFollows, ExpireFollows, LostFollows, LeaveFollows};

use crate::state::State;
use knx_model::{Datagram, IpFrame};
use knxnetip_frames::encode;
use line_model::{ChannelExpired, ChannelTook, PutRefused};
use std::marker::Model;

/// The client's end of a tunnel (ISO 22510, Core and Tunnelling), with at most one channel. Times are in milliseconds, and none is
/// smaller than one that an earlier call had.
#[derive(Drop)]
pub struct Channel {
    state: State,
}

impl Model for Channel {
    ghost use Rattle.line_model.specs.ClientEnd.{ClientEnd};

    ghost Value = { ClientEnd };

    ghost use Rattle.tunnel_channel.specs.Ends.{client_end};

    ghost view = { λ c. client_end c.state };
}

impl Channel {
    /// An end without channel. It knows what an empty record says.
    pub fn new() -> Channel
        ensures value { result ≡ Idle }
        ensures follows { NewFollows }
    {
        Channel { state: State::Idle }
    }

    /// The connect request, for an endpoint that was just taken.
    pub fn connect(&mut self, now: u64) -> Datagram
        requires { MayConnect self.old }
        ensures answer { result ≡ Written ConnectRequest }
        ensures next { self.new ≡ Seeking now }
        ensures follows { ConnectFollows self.old now }
    {
        self.state = State::Seeking { since: now };
        encode(&IpFrame::ConnectRequest)
    }

    /// The request that brings a cEMI frame of 1 to 290 octets to the gateway. Busy exactly where a request is outstanding, NotUp exactly
    /// where there is no channel; then nothing changes.
    pub fn put(&mut self, cemi: &[u8], now: u64) -> Result<Datagram, PutRefused>
        requires { IsCemi cemi.now }
        ensures answer { result_ok result ≡ channel_put self.old cemi.now }
        ensures refused { result_err result ≡ put_refused self.old }
        ensures next { self.new ≡ after_put self.old cemi.now now }
        ensures follows { PutFollows self.old cemi.now now }
    {
        match &mut self.state {
            State::Open(ends) => ends.put(cemi, now),
            State::Leaving(ends) => ends.put(cemi, now),
            State::Idle | State::Seeking { .. } | State::JustLost { .. } => Err(PutRefused::NotUp),
        }
    }

    /// Takes a frame of the gateway.
    pub fn take(&mut self, frame: &IpFrame, now: u64) -> ChannelTook
        requires { HasTunnelIfUp frame.now }
        ensures answer { result ≡ channel_took self.old frame.now now }
        ensures next { self.new ≡ after_took self.old frame.now now (channel_took self.old frame.now now) }
        ensures follows { TakeFollows self.old frame.now now }
    {
        let took = self.state.took(frame, now);
        self.state.after(frame, now, &took);
        took
    }

    /// What has become due: of several the first of Lost, NoAnswer, Dead, Repeat and Beat.
    pub fn expire(&mut self, now: u64) -> ChannelExpired
        ensures answer { result ≡ channel_expired self.old now }
        ensures next { self.new ≡ after_expired self.old now (channel_expired self.old now) }
        ensures follows { ExpireFollows self.old now }
    {
        let expired = self.state.expired(now);
        self.state.after_expiry(now, &expired);
        expired
    }

    /// The channel is lost for want of a confirmation.
    pub fn lost(&mut self)
        requires { is_some (open_end self.old) ≡ true }
        ensures next { self.new ≡ lost self.old }
        ensures follows { LostFollows self.old }
    {
        self.state.lost();
    }

    /// The disconnect request for the channel, which stays open until its response is taken or it is lost, or for the one that was just
    /// lost; None exactly where there is neither.
    pub fn leave(&mut self) -> Option<Datagram>
        ensures answer { result ≡ channel_left self.old }
        ensures next { self.new ≡ after_leave self.old }
        ensures follows { LeaveFollows self.old }
    {
        let request = self.state.disconnect_request();
        self.state.leave();
        request
    }

    /// Whether the time alone has ended the channel, or the wait for one.
    pub fn is_over(&self, now: u64) -> bool
        ensures { result ≡ is_over self.now now }
    {
        self.state.is_over(now)
    }

    /// Whether a channel is open.
    pub fn is_open(&self) -> bool
        ensures { result ≡ is_some (open_end self.now) }
    {
        self.state.is_open()
    }

    /// Whether a channel may be sought: none is open, and none is sought.
    pub fn may_connect(&self) -> bool
        ensures { IsTrue result ↔ MayConnect self.now }
    {
        self.state.may_connect()
    }

    /// Why a request can't be put now.
    pub fn refuses(&self) -> Option<PutRefused>
        ensures { result ≡ put_refused self.now }
    {
        self.state.refuses()
    }

    /// The nearest time at which something becomes due; None exactly where no wait runs.
    pub fn deadline(&self) -> Option<u64>
        ensures { result ≡ channel_deadline self.now }
    {
        self.state.deadline()
    }
}
