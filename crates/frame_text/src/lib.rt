//! The parts of a KNXnet/IP datagram as text, and the datagram as a word of hexadecimal digits.
#![tactic(auto)]

mod apdu;
mod cemi;
mod frame;
mod gateway;
mod ip;
mod pieces;
mod tpdu;
mod word;

pub use frame::frame_text;
pub use gateway::put_findings;
pub use knx_model::{NoMemory, Octets};
pub use word::hex_in;
