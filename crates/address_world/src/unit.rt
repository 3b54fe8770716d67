//! The units of a simulated bus, and what is lost there.

use knx_model::{IndAddr, List};

/// A unit on the bus.
#[derive(Clone, Copy, Debug, Drop, PartialEq, Eq)]
pub struct Unit {
    pub address: IndAddr,
    /// Whether it is in programming mode.
    pub prog: bool,
}

/// A frame that is lost between a unit and the bus.
#[derive(Clone, Copy, Debug, Drop, PartialEq, Eq)]
pub struct UnitLoss {
    /// Whether it is a response of the unit, lost for the gateway, or a broadcast, lost for the unit.
    pub answer: bool,
    /// The unit, from 1.
    pub unit: u32,
    /// Which broadcast of all, or which response of the unit, from 1.
    pub n: u32,
}

/// Units, in the order of their lines, and what is lost.
#[derive(Drop)]
pub struct UnitScript {
    pub units: List<Unit>,
    pub losses: List<UnitLoss>,
}
