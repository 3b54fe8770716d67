//! A client of the simulated line.

ghost use Rattle.std.specs.Prelude.{◌≤◌, length, IfOk, IfSome};

use crate::fault::Fault;
use bus_sim::SimBus;
use knx_model::{Datagram, IndAddr, IpFrame};
use knxnetip_frames::encode;
use line_model::{Link, Polled};

/// The tunnel's address, 1.1.255.
pub const TUNNEL: IndAddr = IndAddr { raw: 0x11FF };

/// The first channel that the gateway makes.
const CHANNEL: u8 = 1;

/// A client that puts one request after another, answered or not.
#[derive(Drop)]
pub struct Client {
    bus: SimBus,
    /// The number of the next request.
    number: u8,
}

impl Client {
    /// Of a line.
    pub fn new(bus: SimBus) -> Client {
        Client { bus, number: 0 }
    }

    /// Whether the device at an address runs.
    pub fn runs(&self, device: IndAddr) -> bool {
        match self.bus.state(device) {
            Some(device) => device.runs(),
            None => false,
        }
    }

    /// How many events there were on the line.
    pub fn events(&self) -> u64 {
        self.bus.at()
    }

    /// Asks for a channel at a new endpoint.
    pub fn connect(&mut self) -> Result<(), Fault> {
        self.bus.renew()?;
        self.send(encode(&IpFrame::ConnectRequest).as_slice())
    }

    /// Sends a datagram.
    pub fn send(&mut self, octets: &[u8]) -> Result<(), Fault> {
        self.bus.send(octets)?;
        Ok(())
    }

    /// Puts a frame for a device.
    pub fn put(&mut self, device: IndAddr, tpdu: &[u8]) -> Result<(), Fault>
        requires { length tpdu.now ≤ 64 }
    {
        let request = request(self.number, device, tpdu);
        self.number = self.number.wrapping_add(1);
        self.send(request.as_slice())
    }

    /// Acknowledges a request of the gateway.
    pub fn acknowledge(&mut self, number: u8) -> Result<(), Fault> {
        let ack = IpFrame::TunnellingAck {
            channel: CHANNEL,
            number,
            status: 0,
        };
        self.send(encode(&ack).as_slice())
    }

    /// The next datagram, how many octets of the buffer; None where the line is quiet.
    pub fn get(&mut self, into: &mut [u8; 512]) -> Result<Option<usize>, Fault>
        ensures { IfOk result (λ got. IfSome got (λ n. n ≤ 512)) }
    {
        match self.bus.poll(into, 0)? {
            Polled::Got(n) => Ok(Some(n)),
            Polled::Quiet => Ok(None),
        }
    }
}

/// A tunnelling request with an L_Data.req frame for a device.
fn request(number: u8, device: IndAddr, tpdu: &[u8]) -> Datagram
    requires { length tpdu.now ≤ 64 }
{
    let count = tpdu.len() as u8;
    let control = if count > 16 { 0x3C } else { 0xBC };
    let mut out = Datagram::from_slice(&[0x06, 0x10, 0x04, 0x20, 0x00]);
    out.extend(&[count + 19, 0x04, CHANNEL, number, 0x00]);
    out.extend(&[0x11, 0x00, control, 0x60, 0x00, 0x00]);
    out.extend(&device.raw.to_be_bytes());
    out.extend(&[count.wrapping_sub(1)]);
    out.extend(tpdu);
    out
}
