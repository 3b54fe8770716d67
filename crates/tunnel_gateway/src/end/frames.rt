//! What the gateway's end does about the frame of an endpoint (ISO 22510, Core and Tunnelling).

ghost use Rattle.std.specs.Prelude.{◌≡◌, ◌≤◌, ◌+◌, ◌%◌, ℕ, None};
ghost use Rattle.knx_model.specs.declared.frames.ip.IpFrame.TheVariants.{StateRequest, DisconnectRequest, TunnellingRequest, TunnellingAck};
ghost use Rattle.line_model.specs.Gateway.{hears, names, connects, took};
ghost use Rattle.line_model.specs.GatewayEnd.{IsChannelNumber, TookAs, gateway_of};

use super::GatewayEnd;
use crate::answers::{CONNECTION_ID, answered, connect_response, dropped, state_response};
use crate::channel::Channel;
use knx_model::{Datagram, IpFrame};
use knxnetip_frames::{NO_ERROR, disconnect_response};
use line_model::GatewayTook;

impl GatewayEnd {
    /// A datagram of an endpoint came.
    pub(super) fn hear(&mut self, from: u64, now: u64)
        ensures channel { self.new ≡ record self.old { channel = hears self.old.channel from now } }
        ensures next { IsChannelNumber self.new.next }
    {
        match &mut self.channel {
            Some(channel) => channel.hear(from, now),
            None => {}
        }
    }

    /// What a frame does, once its datagram was heard.
    pub(super) fn act(&mut self, from: u64, frame: &IpFrame, now: u64) -> GatewayTook
        requires { IsChannelNumber self.old.next }
        ensures { TookAs (took (gateway_of self.old) from now frame.now) result self.new }
    {
        match frame {
            IpFrame::ConnectRequest => self.connect(from, now),
            IpFrame::StateRequest { channel } => self.state_request(from, *channel),
            IpFrame::DisconnectRequest { channel } => self.disconnect(from, *channel),
            IpFrame::TunnellingRequest {
                channel,
                number,
                cemi,
            } => self.request(from, *channel, *number, cemi),
            IpFrame::TunnellingAck {
                channel,
                number,
                status,
            } => self.ack(from, *channel, *number, *status),
            IpFrame::ConnectResponse { .. }
            | IpFrame::StateResponse { .. }
            | IpFrame::DisconnectResponse { .. } => dropped(),
        }
    }

    fn connect(&mut self, from: u64, now: u64) -> GatewayTook
        ensures { TookAs (connects (gateway_of self.old) from now self.old.channel) result self.new }
    {
        match &self.channel {
            Some(channel) if channel.endpoint() == from => {
                answered(connect_response(channel.number(), self.tunnel))
            }
            _ => self.open(from, now),
        }
    }

    /// Opens the next channel, whatever was open.
    fn open(&mut self, from: u64, now: u64) -> GatewayTook
        ensures { TookAs (connects (gateway_of self.old) from now None) result self.new }
    {
        let number = self.next;
        self.next = next_channel(number);
        self.channel = Some(Channel::new(from, number, now));
        answered(connect_response(number, self.tunnel))
    }

    fn state_request(&self, from: u64, number: u8) -> GatewayTook
        ensures { (now : ℕ) → TookAs (took (gateway_of self.now) from now (StateRequest number)) result self.now }
    {
        match &self.channel {
            Some(channel) if channel.is(from, number) => answered(state_response(number)),
            _ => dropped(),
        }
    }

    fn disconnect(&mut self, from: u64, number: u8) -> GatewayTook
        ensures { (now : ℕ) → TookAs (took (gateway_of self.old) from now (DisconnectRequest number)) result self.new }
    {
        if self.has(from, number) {
            self.channel = None;
            answered(disconnect_response(number, NO_ERROR))
        } else {
            answered(disconnect_response(number, CONNECTION_ID))
        }
    }

    fn request(&mut self, from: u64, channel: u8, number: u8, cemi: &Datagram) -> GatewayTook
        ensures { (now : ℕ) → TookAs (took (gateway_of self.old) from now (TunnellingRequest channel number cemi.now)) result self.new }
    {
        match &mut self.channel {
            Some(open) if open.is(from, channel) => open.take_request(number, cemi),
            _ => dropped(),
        }
    }

    fn ack(&mut self, from: u64, channel: u8, number: u8, status: u8) -> GatewayTook
        ensures { (now : ℕ) → TookAs (took (gateway_of self.old) from now (TunnellingAck channel number status)) result self.new }
    {
        match &mut self.channel {
            Some(open) if open.is(from, channel) => open.take_ack(number, status),
            _ => {}
        }
        dropped()
    }

    /// Whether the open channel is this endpoint's and has this number.
    fn has(&self, from: u64, number: u8) -> bool
        ensures { result ≡ names from number self.now.channel }
    {
        match &self.channel {
            Some(channel) => channel.is(from, number),
            None => false,
        }
    }
}

/// The number of the channel after one: 1 to 255, and then 1 again.
fn next_channel(number: u8) -> u8
    requires { IsChannelNumber number }
    ensures value { result ≡ 1 + number % 255 }
    ensures range { IsChannelNumber result }
{
    if number == u8::MAX { 1 } else { number + 1 }
}
