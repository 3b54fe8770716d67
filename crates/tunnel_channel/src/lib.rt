//! The client's end of a tunnel (ISO 22510, Core and Tunnelling), as a value that is told frames and times and that answers what is to be
//! sent. It knows of its channel what the link's record says.
#![tactic(auto)]

mod channel;
mod ends;
pub mod laws;
mod request;
mod state;
mod took;
mod wait;

pub use channel::Channel;
pub use line_model::{ChannelExpired, ChannelTook, PutRefused};
