//! Frames of KNXnet/IP as octets (ISO 22510, Core and Tunnelling): `decode` and `encode`, and the laws that tie both to the
//! grammar.
//!
//! ```
//! /// The frame of the link layer that a tunnelling request of this channel carries.
//! fn request_of(channel: u8, datagram: &[u8]) -> Option<Datagram> {
//!     match knxnetip_frames::decode(datagram) {
//!         Ok(
//!             IpFrame::TunnellingRequest {
//!                 channel: other,
//!                 cemi,
//!                 ..
//!             },
//!         ) if other == channel => Some(cemi),
//!         _ => None,
//!     }
//! }
//! ```
#![tactic(auto)]

mod either_end;
mod endpoint;
mod frame;
mod header;
pub mod laws;
mod service;
mod services;

pub use either_end::{NO_ERROR, acknowledgement, disconnect_request, disconnect_response};
pub use frame::{decode, encode};
pub use knx_model::{Datagram, IndAddr, IpFrame, IpRefused};
