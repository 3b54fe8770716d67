//! A link in memory, which tells nothing: a gateway that answers at once, with one device on the bus.

ghost use Rattle.std.specs.Prelude.{◌≡◌, ◌≤◌};
ghost use Rattle.line_model.specs.LinkStory.{Untold};
ghost use Rattle.line_model.specs.Polled.{PollsSo};

use device_sim::Device;
use knx_model::{ApduOctets, Datagram, IndAddr, IpFrame, Ldata, LdataCode, NoMemory, Took};
use line_model::{FaultCounts, Link, LinkFault, Polled};
use std::alloc::Global;

/// The address of its tunnel, 1.1.255.
pub const TUNNEL: IndAddr = IndAddr { raw: 0x11FF };

/// How many frames of the device it takes at a time.
const MOST_FRAMES: u32 = 64;

/// What the gateway does with the client's requests.
#[derive(Clone, Copy, Debug, Drop, PartialEq, Eq)]
pub enum Mood {
    Answers,
    /// The connect requests are refused with this status.
    Refuses(u8),
    /// The device tells the descriptor 0012 in place of its own.
    OtherMask,
    /// The tunnelling requests from the n-th on are neither acknowledged nor acted on, until the next channel.
    DropsFrom(u32),
}

/// A poll that lasts longer than its wait, by so many milliseconds; polls are counted from 1.
#[derive(Clone, Copy, Debug, Drop, PartialEq, Eq)]
pub struct Jump {
    pub poll: u64,
    pub ms: u64,
}

/// A gateway with its device, the time, and how often it was called.
#[derive(Drop)]
pub struct Gateway {
    pub side: Side,
    pub polls: u64,
    jump: Option<Jump>,
    now: u64,
    at: u64,
    faults: FaultCounts,
}

/// The gateway's side: what it does with what it is sent.
#[derive(Drop)]
pub struct Side {
    alloc: Global,
    device: Device,
    mood: Mood,
    /// Datagrams to the client.
    inbox: Vec<Datagram>,
    /// Frames that wait for the client's acknowledgement.
    waiting: Vec<Ldata>,
    outstanding: bool,
    number: u8,
    requests: u32,
    pub connects: u32,
    pub disconnects: u32,
}

impl Gateway {
    pub fn new(alloc: Global, device: Device, mood: Mood) -> Gateway {
        Gateway {
            side: Side::new(alloc, device, mood),
            polls: 0,
            jump: None,
            now: 0,
            at: 0,
            faults: FaultCounts::none(),
        }
    }

    /// The same gateway, over a link whose clock jumps so.
    pub fn jumping(self, jump: Jump) -> Gateway {
        let mut gateway = self;
        gateway.jump = Some(jump);
        gateway
    }

    /// Counts a poll, and lets the clock jump in it where it is to.
    fn begin_poll(&mut self)
        ensures time { self.old.now ≤ self.new.now }
        ensures events { self.new.at ≡ self.old.at }
        ensures faults { self.new.faults ≡ self.old.faults }
    {
        self.polls = self.polls.saturating_add(1);
        match self.jump {
            Some(jump) if jump.poll == self.polls => {
                self.now = self.now.saturating_add(jump.ms);
            }
            _ => {}
        }
    }

    /// It is sent a datagram.
    fn is_sent(&mut self, octets: &[u8]) -> Result<(), LinkFault>
        ensures time { self.new.now ≡ self.old.now }
        ensures events { self.old.at ≤ self.new.at }
        ensures faults { self.new.faults ≡ self.old.faults }
    {
        self.at = self.at.saturating_add(1);
        match knxnetip_frames::decode(octets) {
            Ok(frame) => self.side.took(frame, self.now)?,
            Err(_) => {}
        }
        Ok(())
    }

    /// It gives a datagram, or nothing until the wait is over.
    fn gives(&mut self, into: &mut [u8; 512], wait_ms: u32) -> Result<Polled, LinkFault>
        ensures polled { PollsSo result into.new wait_ms self.new.now Untold Untold }
        ensures time { self.old.now ≤ self.new.now }
        ensures events { self.old.at ≤ self.new.at }
        ensures faults { self.new.faults ≡ self.old.faults }
    {
        self.at = self.at.saturating_add(1);
        self.begin_poll();
        self.side.hears(self.now)?;
        self.side.puts()?;
        if self.side.inbox.is_empty() {
            self.now = self.now.saturating_add(u64::from(wait_ms));
            return Ok(Polled::Quiet);
        }
        let datagram = self.side.inbox.remove(0);
        let octets = datagram.as_slice();
        for i in 0..octets.len() {
            into[i] = octets[i];
        }
        Ok(Polled::Got(octets.len()))
    }
}

impl Side {
    fn new(alloc: Global, device: Device, mood: Mood) -> Side {
        Side {
            alloc,
            device,
            mood,
            inbox: Vec::new(alloc),
            waiting: Vec::new(alloc),
            outstanding: false,
            number: 0,
            requests: 0,
            connects: 0,
            disconnects: 0,
        }
    }

    fn answer(&mut self, datagram: Datagram) -> Result<(), NoMemory> {
        self.inbox.push(datagram)?;
        Ok(())
    }

    fn took(&mut self, frame: IpFrame, now: u64) -> Result<(), NoMemory> {
        match frame {
            IpFrame::ConnectRequest => self.connects(),
            IpFrame::TunnellingRequest { number, cemi, .. } => self.requests(number, &cemi, now),
            IpFrame::TunnellingAck { .. } => {
                self.outstanding = false;
                Ok(())
            }
            IpFrame::StateRequest { .. } => self.answer(state_response()),
            IpFrame::DisconnectRequest { .. } => {
                self.disconnects = self.disconnects.saturating_add(1);
                self.answer(disconnect_response())
            }
            _ => Ok(()),
        }
    }

    fn connects(&mut self) -> Result<(), NoMemory> {
        self.connects = self.connects.saturating_add(1);
        self.outstanding = false;
        self.number = 0;
        if let Mood::Refuses(status) = self.mood {
            return self.answer(refusal(status));
        }
        if self.connects > 1 {
            self.mood = Mood::Answers;
        }
        self.answer(connect_response())
    }

    fn requests(&mut self, number: u8, cemi: &Datagram, now: u64) -> Result<(), NoMemory> {
        self.requests = self.requests.saturating_add(1);
        if let Mood::DropsFrom(n) = self.mood {
            if self.requests >= n {
                return Ok(());
            }
        }
        self.answer(ack(number))?;
        match cemi_frames::decode(cemi.as_slice()) {
            Ok(frame) => self.acts(frame, now),
            Err(_) => Ok(()),
        }
    }

    /// The frame goes over the bus, and its confirmation waits for the client.
    fn acts(&mut self, frame: Ldata, now: u64) -> Result<(), NoMemory> {
        let sent = Ldata {
            source: TUNNEL.raw,
            code: LdataCode::Ind,
            ..frame
        };
        let took = self.device.take(self.alloc, &sent, now)?;
        let error = !sent.group && took != Took::Taken;
        self.waiting.push(Ldata {
            code: LdataCode::Con,
            error,
            ..sent
        })?;
        Ok(())
    }

    /// What the device sends waits for the client.
    fn hears(&mut self, now: u64) -> Result<(), NoMemory> {
        for _ in 0..MOST_FRAMES {
            match self.device.sends(now) {
                Some(frame) => {
                    let frame = self.told(frame);
                    self.waiting.push(frame)?;
                }
                None => return Ok(()),
            }
        }
        Ok(())
    }

    /// What the gateway makes of a frame that the device sends.
    fn told(&self, frame: Ldata) -> Ldata {
        let tpdu = match (self.mood, frame.tpdu.as_slice()) {
            (Mood::OtherMask, [first, 0x40, 0x07, 0xB0]) => {
                ApduOctets::from_slice(&[*first, 0x40, 0x00, 0x12])
            }
            _ => frame.tpdu.copied(),
        };
        Ldata {
            code: LdataCode::Ind,
            tpdu,
            ..frame
        }
    }

    /// The frame that waits longest goes to the client.
    fn puts(&mut self) -> Result<(), NoMemory> {
        if self.outstanding || self.waiting.is_empty() {
            return Ok(());
        }
        let frame = self.waiting.remove(0);
        self.outstanding = true;
        let number = self.number;
        self.number = number.wrapping_add(1);
        self.answer(request(number, &frame))
    }
}

fn connect_response() -> Datagram {
    Datagram::from_slice(&[
        0x06, 0x10, 0x02, 0x06, 0x00, 0x14, 0x07, 0x00, 0x08, 0x01, 0x00, 0x00, 0x00, 0x00, 0x00,
        0x00, 0x04, 0x04, 0x11, 0xFF,
    ])
}

fn refusal(status: u8) -> Datagram {
    Datagram::from_slice(&[0x06, 0x10, 0x02, 0x06, 0x00, 0x08, 0x00, status])
}

fn state_response() -> Datagram {
    Datagram::from_slice(&[0x06, 0x10, 0x02, 0x08, 0x00, 0x08, 0x07, 0x00])
}

fn disconnect_response() -> Datagram {
    Datagram::from_slice(&[0x06, 0x10, 0x02, 0x0A, 0x00, 0x08, 0x07, 0x00])
}

fn ack(number: u8) -> Datagram {
    Datagram::from_slice(&[0x06, 0x10, 0x04, 0x21, 0x00, 0x0A, 0x04, 0x07, number, 0x00])
}

/// A tunnelling request with a frame.
fn request(number: u8, frame: &Ldata) -> Datagram {
    let tpdu = frame.tpdu.as_slice();
    let code = match frame.code {
        LdataCode::Req => 0x11,
        LdataCode::Con => 0x2E,
        LdataCode::Ind => 0x29,
    };
    let first = if tpdu.len() > 16 { 0x3C } else { 0xBC };
    let first = if frame.error { first + 1 } else { first };
    let second = if frame.group { 0xE0 } else { 0x60 };
    let mut out = Datagram::from_slice(&[0x06, 0x10, 0x04, 0x20, 0x00]);
    out.extend(&[(tpdu.len() + 19) as u8, 0x04, 0x07, number, 0x00]);
    out.extend(&[code, 0x00, first, second]);
    out.extend(&frame.source.to_be_bytes());
    out.extend(&frame.destination.to_be_bytes());
    out.extend(&[(tpdu.len() as u8).wrapping_sub(1)]);
    out.extend(tpdu);
    out
}

impl Link for Gateway {
    ghost use Rattle.std.specs.Prelude.{[]};
    ghost use Rattle.line_model.specs.LinkStory.{Story, Untold};

    ghost story = { λ _. Untold };

    ghost script = { λ _. [] };

    ghost clock = { λ g. g.now };

    ghost place = { λ g. g.at };

    ghost faults = { λ g. g.faults };

    fn send(&mut self, octets: &[u8]) -> Result<(), LinkFault> {
        self.faults.begin()?;
        let sent = self.is_sent(octets);
        self.faults.count(sent)
    }

    fn renew(&mut self) -> Result<(), LinkFault> {
        self.faults.begin()?;
        self.at = self.at.saturating_add(1);
        self.side.inbox.clear();
        Ok(())
    }

    fn poll(&mut self, into: &mut [u8; 512], wait_ms: u32) -> Result<Polled, LinkFault> {
        self.faults.begin()?;
        let polled = self.gives(into, wait_ms);
        self.faults.count(polled)
    }

    fn now(&self) -> u64 {
        self.now
    }

    fn at(&self) -> u64 {
        self.at
    }
}
