//! The simulated tunnel: the client's endpoint, the network, the gateway with its end of the tunnel and what waits for bus and client, and the time; one
//! call for each event. Which event comes when is the caller's.
#![tactic(auto)]

mod frames;
mod gateway;
mod tunnel;

pub use frames::confirmation;
pub use gateway::{Due, Gateway, Letter, counted};
pub use knx_model::{Datagram, IndAddr, Ldata, NoMemory};
pub use tunnel::{AtGateway, DEFAULT_TUNNEL, Tunnel};
