//! How far a job has come.

use knx_model::IndAddr;

/// How far the job of a device has come: how many operations of its plan are over, of how many.
#[derive(Clone, Copy, Drop)]
pub struct Gone {
    pub device: IndAddr,
    pub done: u32,
    pub all: u32,
}
