//! Discovery (ISO 22510, Core): which gateways there are, and what they tell of themselves.
#![tactic(auto)]

mod about;
mod blocks;
mod families;
mod find_frame;
mod finder;
mod frame;
mod header;
mod inquiry;
pub mod laws;
mod service;
mod services;

pub use about::About;
pub use families::Families;
pub use find_frame::FindFrame;
pub use finder::Finder;
pub use frame::{decode, encode, encode_response};
pub use inquiry::Inquiry;
pub use knx_model::{Datagram, IndAddr, IpRefused, NoMemory};
