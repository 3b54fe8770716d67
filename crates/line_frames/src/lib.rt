//! The frames in datagrams (ISO 22510, Core and Tunnelling; KNX standard 3/6/3, common EMI). The line's definitions say by functions of
//! their own which frame octets are; here the decoders are these functions, so that the crates of the line cite one word for both. And the
//! requests that a client puts.
#![tactic(auto)]

mod frames;
mod requests;

pub use frames::{datagram_in, ldata_in};
pub use requests::request;
