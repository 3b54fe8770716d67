//! Frames of the bus and of KNXnet/IP, with their octets.

mod cemi;
mod ip;
mod octets;
mod tpdu;
mod value;

pub use cemi::{CemiRefused, Ldata, LdataCode};
pub use ip::{IpFrame, IpRefused};
pub use octets::{ApduOctets, Datagram, LongValue};
pub use tpdu::{Apdu, MOST_MEMORY_OCTETS, Tpdu, TpduRefused};
pub use value::Value;
