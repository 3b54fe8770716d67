//! The simulated line as data: the tunnel with its gateway and network, the bus and the devices, and one call for each event of the line.
//! Which event comes when is the caller's: a call is told what happens, and what it answers and what is held afterwards is that of each
//! world that it is a picture of.
#![tactic(auto)]

mod devices;
pub mod laws;
mod line;
mod parts;

pub use device_sim::Device;
pub use devices::Devices;
pub use knx_model::{ApduOctets, Datagram, IndAddr, Ldata, NoMemory, Octets, Sending, WriteKind};
pub use line::Line;
pub use tunnel_sim::{AtGateway, Due};
