//! The network between a client and its gateway, simulated (UDP over IPv4): the datagrams of one sender, of which any may be lost, repeated or
//! late. It keeps the youngest 128, since an older one never arrives, and takes its memory once, when it is made.
#![tactic(auto)]

mod changes;
mod kept;
pub mod laws;
mod oldest;
mod place;
mod readable;
mod sender;

pub use kept::Sending;
pub use knx_model::NoMemory;
pub use place::Reach;
pub use sender::Sendings;
