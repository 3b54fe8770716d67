//! Group telegrams: those that a run sends, and those that it hears.

use knx_model::{GroupAddr, GroupService, IndAddr};

/// A group telegram that a run sends, while its jobs run or after them.
#[derive(Drop)]
pub struct GroupTurn {
    /// Whether it is sent after all jobs have ended.
    pub after: bool,
    pub group: GroupAddr,
    pub service: GroupService,
}

/// A group telegram that was heard, and the device that sent it.
#[derive(Drop)]
pub struct Indication {
    pub from: IndAddr,
    pub group: GroupAddr,
    pub service: GroupService,
}
