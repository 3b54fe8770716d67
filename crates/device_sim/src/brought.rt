//! What a frame to a group brings a device.

use crate::values::Values;
use knx_model::Ldata;
use std::collections::VecDeque;

/// What a frame to a group brings a device, made ahead with all the memory that it takes: so the device can get it without any.
#[derive(Drop)]
pub enum Brought {
    /// The device doesn't take the frame.
    NotTaken,
    /// Nothing but the frame itself.
    Nothing,
    /// The values of its objects, some of them new.
    NewValues(Values),
    /// The frames that it has to send, with an answer behind them.
    Unsent(VecDeque<Ldata>),
}
