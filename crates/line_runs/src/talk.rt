//! A conversation with one device.

use crate::client::{Client, TUNNEL};
use crate::fault::Fault;
use bus_sim::SimBus;
use cemi_frames::decode as decode_cemi;
use knx_model::{IndAddr, IpFrame, LdataCode, Refused};
use knxnetip_frames::decode;
use script_text::read_script;
use std::alloc::Global;

const DEVICE: IndAddr = IndAddr { raw: 0x1105 };

/// What is sent to the device: a connection is opened; the address table is loaded with 13 octets, in one memory write, each answer acknowledged; and its
/// first octet is read.
const TPDUS: [&'static [u8]; 7] = [
    &[0x80],
    &[
        0x43, 0xD7, 0x01, 0x05, 0x10, 0x01, 0x01, 0, 0, 0, 0, 0, 0, 0, 0, 0,
    ],
    &[0xC2],
    &[
        0x47, 0xD7, 0x01, 0x05, 0x10, 0x01, 0x03, 0x0B, 0, 0, 0, 13, 0x01, 0, 0, 0,
    ],
    &[0xC6],
    &[
        0x4A, 0x8D, 0x40, 0x00, 0x11, 0x11, 0x11, 0x11, 0x11, 0x11, 0x11, 0x11, 0x11, 0x11, 0x11,
        0x11, 0x11,
    ],
    &[0x4E, 0x01, 0x40, 0x00],
];

/// The most datagrams that are taken in turn.
const MOST: usize = 16;

/// What the client is told, as text.
#[derive(Drop)]
struct Talk {
    alloc: Global,
    client: Client,
    told: String,
}

impl Talk {
    /// Tells a word.
    fn tell(&mut self, word: &str) -> Result<(), Fault> {
        self.told.push(' ')?;
        self.told.push_str(word)?;
        Ok(())
    }

    /// Tells octets.
    fn tell_octets(&mut self, octets: &[u8]) -> Result<(), Fault> {
        self.told.push(' ')?;
        for octet in octets {
            self.told
                .push_str(format!(in self.alloc; "{octet:02x}")?.as_str())?;
        }
        Ok(())
    }

    /// Tells the frame of a request of the gateway.
    fn tell_frame(&mut self, cemi: &[u8]) -> Result<(), Fault> {
        match decode_cemi(cemi) {
            Ok(frame) if frame.code == LdataCode::Ind => self.tell_octets(frame.tpdu.as_slice()),
            Ok(frame) => self.tell(if frame.error { "con-" } else { "con" }),
            Err(_) => self.tell("unread"),
        }
    }

    /// Tells how the gateway answers a connect request.
    fn tell_status(&mut self, status: u8) -> Result<(), Fault> {
        if status == 0 {
            return self.tell("connected");
        }
        self.tell("refused")?;
        self.tell_octets(&[status])
    }

    /// Acknowledges a request of the gateway, and tells its frame.
    fn take(&mut self, number: u8, cemi: &[u8]) -> Result<(), Fault> {
        self.client.acknowledge(number)?;
        self.tell_frame(cemi)
    }

    /// Tells a frame of the gateway.
    fn tell_ip(&mut self, frame: IpFrame) -> Result<(), Fault> {
        match frame {
            IpFrame::ConnectResponse { status, .. } => self.tell_status(status),
            IpFrame::TunnellingAck { .. } => self.tell("ack"),
            IpFrame::TunnellingRequest { number, cemi, .. } => self.take(number, cemi.as_slice()),
            IpFrame::DisconnectRequest { .. } => self.tell("closed"),
            _ => self.tell("unread"),
        }
    }

    /// Tells a datagram; a request is acknowledged.
    fn hear(&mut self, octets: &[u8]) -> Result<(), Fault> {
        match decode(octets) {
            Ok(frame) => self.tell_ip(frame),
            Err(_) => self.tell("unread"),
        }
    }

    /// Tells all that comes until the line is quiet.
    fn listen(&mut self) -> Result<(), Fault> {
        let mut octets = [0; 512];
        for _ in 0..MOST {
            match self.client.get(&mut octets)? {
                Some(n) => self.hear(&octets[..n])?,
                None => break,
            }
        }
        self.told.push(',')?;
        Ok(())
    }

    /// Whether the device runs.
    fn is_running(&self) -> bool {
        self.client.runs(DEVICE)
    }

    /// The whole conversation.
    fn go(&mut self, count: u8) -> Result<(), Fault> {
        self.client.connect()?;
        for _ in 0..count {
            self.client.send(&[0])?;
        }
        self.listen()?;
        for tpdu in &TPDUS {
            self.client.put(DEVICE, tpdu)?;
            self.listen()?;
        }
        self.tell(if self.is_running() { "runs" } else { "stopped" })
    }
}

/// The line of the script and why it is refused.
fn refusal_text(alloc: Global, refused: Refused) -> Result<String, Fault> {
    let (line, word) = (refused.line, refused.why.word());
    Ok(format!(in alloc; " line {line} {word}")?)
}

/// A line with the device alone, blank, that follows a script.
fn line_of(alloc: Global, text: &str) -> Result<SimBus, Refused> {
    let script = read_script(alloc, text.as_bytes())?;
    let mut bus = SimBus::empty(alloc);
    bus.load(alloc, TUNNEL, &[(DEVICE, None)], &script)?;
    Ok(bus)
}

/// What the client is told on a line, where it sends so many datagrams that are no frames behind its connect request.
fn told_on(alloc: Global, bus: SimBus, count: u8) -> Result<String, Fault> {
    let mut talk = Talk {
        alloc,
        client: Client::new(bus),
        told: String::new(alloc),
    };
    talk.go(count)?;
    Ok(talk.told)
}

/// What the client is told on a line that follows a script, or why the script is refused.
pub fn talk_of(alloc: Global, count: u8, text: &str) -> Result<String, Fault> {
    match line_of(alloc, text) {
        Ok(bus) => told_on(alloc, bus, count),
        Err(refused) => refusal_text(alloc, refused),
    }
}
