//! Frames of the link layer as octets (KNX standard 3/6/3, common EMI): `decode` and `encode` of L_Data, and the laws that tie
//! both to the grammar.
//!
//! ```
//! /// The group address that a frame goes to, as it is written in 16 bits.
//! fn group_of(octets: &[u8]) -> Option<u16> {
//!     match cemi_frames::decode(octets) {
//!         Ok(frame) if frame.group => Some(frame.destination),
//!         _ => None,
//!     }
//! }
//! ```
#![tactic(auto)]

mod code;
mod control;
pub mod laws;
mod ldata;

pub use knx_model::{ApduOctets, CemiRefused, Datagram, Ldata, LdataCode};
pub use ldata::{decode, encode, octets_of};
