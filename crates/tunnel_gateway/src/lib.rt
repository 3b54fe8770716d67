//! The gateway's end of a tunnel (ISO 22510, Core and Tunnelling), as a value that is told datagrams and times and that answers what is
//! to be sent. It takes no memory.
#![tactic(auto)]

mod answers;
mod channel;
mod end;
pub mod laws;
mod request;
mod wait;

pub use end::GatewayEnd;
pub use knx_model::{Datagram, IndAddr, IpFrame};
pub use line_model::{GatewayExpired, GatewayTook, PutRefused};
