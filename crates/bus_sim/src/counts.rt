//! How often things happened on the line, as the script counts them.

ghost use Rattle.std.specs.Prelude.{◌≡◌, IfOk, length, replicate};
ghost use Rattle.line_model.specs.StartOf.{line_of};
ghost use Rattle.bus_sim.specs.Counted.{added, connected, counts_at, none_counted, nothing_counted};

use knx_model::{IndAddr, NoMemory};
use std::alloc::Global;
use std::marker::Model;
use tunnel_sim::counted;

/// How many devices a line has room for: the device part of an address has eight bits.
const PLACES: usize = 256;

/// What was counted of a device: frames on the bus for it alone, frames that it sent, frames for it alone that it took, and its writes. Each count
/// stands still at the greatest number of 64 bits.
#[derive(Clone, Copy, Drop)]
pub struct DeviceCounts {
    pub to: u64,
    pub from: u64,
    pub taken: u64,
    pub writes: u64,
}

/// What of a device an event is.
#[derive(Clone, Copy, Drop)]
pub struct Met {
    pub to: bool,
    pub from: bool,
    pub taken: bool,
    pub wrote: bool,
}

/// The counts of the devices of one line, by the device part of their addresses, and how many connect requests reached the gateway.
#[derive(Drop)]
pub struct Counts {
    line: u8,
    places: Vec<DeviceCounts>,
    connects: u64,
}

impl Model for Counts {
    ghost use Rattle.std.specs.Prelude.{◌≡◌, length};
    ghost use Rattle.bus_sim.specs.Counted.{CountsNow};

    ghost Value = { CountsNow };

    ghost view = { λ c. record { line = c.line; places = c.places.items; connects = c.connects } };

    ghost invariant = { λ c. length c.places.items ≡ 256 };
}

impl Counts {
    /// Nothing was counted, on the line of an address.
    pub fn new(alloc: Global, on: IndAddr) -> Result<Counts, NoMemory>
        ensures { IfOk result (λ made. made ≡ nothing_counted (line_of on.raw)) }
    {
        Ok(Counts {
            line: (on.raw / 256) as u8,
            places: no_counts(alloc)?,
            connects: 0,
        })
    }

    /// What was counted of the device at an address; nothing at one of another line.
    pub fn of(&self, address: u16) -> DeviceCounts
        ensures { result ≡ counts_at self.now address }
    {
        if u16::from(self.line) == address / 256 {
            self.places[(address % 256) as usize]
        } else {
            NONE
        }
    }

    /// How many connect requests reached the gateway.
    pub fn connects(&self) -> u64
        ensures { result ≡ self.now.connects }
    {
        self.connects
    }

    /// One more connect request reached it, where there is one.
    pub fn connect_if(&mut self, more: bool)
        ensures { self.new ≡ connected more self.old }
    {
        self.connects = counted(more, self.connects);
    }

    /// An event is so much of the device at an address.
    pub fn add(&mut self, address: u16, met: Met)
        ensures value { self.new ≡ added address met self.old }
        ensures line { self.new.line ≡ self.old.line }
        ensures places { length self.old.places ≡ 256 }
    {
        if u16::from(self.line) == address / 256 {
            let place = &mut self.places[(address % 256) as usize];
            place.to = counted(met.to, place.to);
            place.from = counted(met.from, place.from);
            place.taken = counted(met.taken, place.taken);
            place.writes = counted(met.wrote, place.writes);
        }
    }
}

const NONE: DeviceCounts = DeviceCounts {
    to: 0,
    from: 0,
    taken: 0,
    writes: 0,
};

/// For each place that nothing was counted.
fn no_counts(alloc: Global) -> Result<Vec<DeviceCounts>, NoMemory>
    ensures { IfOk result (λ made. made.items ≡ replicate 256 none_counted) }
{
    Ok(vec![in alloc; NONE; PLACES]?)
}
