//! Both ends of a numbered connection (ISO/IEC 14543-3-2, transport layer), as values that are told frames and times and that
//! answer what is to be sent.
#![tactic(auto)]

mod client;
mod device;
mod frame;
pub mod laws;
mod session;
mod wait;

pub use client::ClientConn;
pub use device::DeviceConn;
pub use frame::{connect, disconnect, next_number, numbered};
pub use knx_model::{
    ApduOctets, Busy, ClientConfirmed, ClientExpired, ClientTook, DeviceExpired, DeviceTook,
    IndAddr,
};
