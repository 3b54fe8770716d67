//! What the client knows of its tunnel, without any link.

ghost use Rattle.std.specs.Prelude.{◌≡◌, IfErr, OnOk, Some, None};
ghost use Rattle.knx_model.specs.declared.frames.ip.IpFrame.TheVariants.{ConnectRequest};
ghost use Rattle.knx_model.specs.KnxNetIp.{Written};
ghost use Rattle.line_model.specs.ClientEnd.{IsCemi, MayConnect, channel_put, channel_expired, channel_left};
ghost use Rattle.tunnel_channel.specs.Follows.{sent_by};
ghost use Rattle.tunnel_link.specs.Goes.{new_known};
ghost use Rattle.tunnel_link.specs.Kept.{with_connect, with_put, with_due, with_leave};
ghost use Rattle.tunnel_link.specs.Rights.{IsntRefusal, IsOfLink, fault_by, has_place};

use crate::flight::Flight;
use crate::tries::Tries;
use knx_model::{Datagram, IndAddr, Ldata};
use line_frames::ldata_in;
use line_model::{ChannelExpired, HubFault, LinkFault};
use tunnel_channel::Channel;

/// What the client knows of its tunnel: its end of the channel, what came of the request that it put last, the tunnel's own address in the last
/// channel, the frame of that request, how the tries since the last channel failed, how many datagrams were dropped and how many were got, awaited
/// connection state responses aside, and why it has ended.
#[derive(Drop)]
pub struct Known {
    pub channel: Channel,
    pub flight: Flight,
    pub tunnel: Option<IndAddr>,
    pub put: Option<Ldata>,
    pub tries: Tries,
    pub dropped: u64,
    pub taken: u64,
    pub fault: Option<HubFault>,
}

impl Known {
    /// Nothing was done yet.
    pub fn new() -> Known
        ensures { result ≡ new_known }
    {
        Known {
            channel: Channel::new(),
            flight: Flight::none(),
            tunnel: None,
            put: None,
            tries: Tries::Zero,
            dropped: 0,
            taken: 0,
            fault: None,
        }
    }

    /// Whether a request can be put.
    pub fn has_place(&self) -> bool
        ensures { result ≡ has_place self.now }
    {
        self.channel.refuses().is_none() && self.flight.confirmed
    }

    /// The connect request, on a new endpoint.
    pub fn connects(&mut self, now: u64) -> Datagram
        requires { MayConnect self.old.channel }
        ensures answer { result ≡ Written ConnectRequest }
        ensures next { self.new ≡ with_connect self.old now }
    {
        self.channel.connect(now)
    }

    /// The request with these cEMI octets, where it can be put.
    pub fn puts(&mut self, cemi: &Datagram, now: u64) -> Option<Datagram>
        requires { IsCemi cemi.now }
        ensures answer { result ≡ channel_put self.old.channel cemi.now }
        ensures next { self.new ≡ with_put self.old cemi.now now }
    {
        match self.channel.put(cemi.as_slice(), now) {
            Ok(request) => {
                self.flight = Flight::put();
                self.put = ldata_in(cemi.as_slice());
                Some(request)
            }
            Err(_) => None,
        }
    }

    /// The request that is due again, or else the heartbeat.
    pub fn due(&mut self, now: u64) -> Option<Datagram>
        ensures answer { result ≡ sent_by (channel_expired self.old.channel now) }
        ensures next { self.new ≡ with_due self.old now }
    {
        match self.channel.expire(now) {
            ChannelExpired::Repeat(datagram) | ChannelExpired::Beat(datagram) => Some(datagram),
            ChannelExpired::Nothing
            | ChannelExpired::Lost
            | ChannelExpired::NoAnswer
            | ChannelExpired::Dead => None,
        }
    }

    /// The request that asks to end the channel, where there is one.
    pub fn leaves(&mut self) -> Option<Datagram>
        ensures answer { result ≡ channel_left self.old.channel }
        ensures next { self.new ≡ with_leave self.old }
    {
        self.channel.leave()
    }

    /// Why it has ended, if so.
    pub fn standing(&self) -> Result<(), HubFault>
        ensures ended { IfErr result (λ fault. self.now.fault ≡ Some fault) }
        ensures stands { OnOk result (self.now.fault ≡ None) }
    {
        match self.fault {
            Some(fault) => Err(fault),
            None => Ok(()),
        }
    }

    /// The link failed.
    pub fn failed(&mut self, fault: LinkFault) -> HubFault
        ensures same { result ≡ fault_by fault }
        ensures next { self.new ≡ record self.old { fault = Some result } }
        ensures by_link { IsntRefusal result }
        ensures of_link { IsOfLink result }
    {
        self.fail(fault_of(fault))
    }

    /// It ends so.
    pub fn fail(&mut self, fault: HubFault) -> HubFault
        ensures same { result ≡ fault }
        ensures next { self.new ≡ record self.old { fault = Some fault } }
    {
        let kept = &fault;
        self.fault = Some(*kept);
        fault
    }
}

/// A fault of the link.
fn fault_of(fault: LinkFault) -> HubFault
    ensures same { result ≡ fault_by fault }
    ensures by_link { IsntRefusal result }
    ensures of_link { IsOfLink result }
{
    match fault {
        LinkFault::NoMemory(no_memory) => HubFault::NoMemory(no_memory),
        LinkFault::Failed => HubFault::LinkFailed,
    }
}
