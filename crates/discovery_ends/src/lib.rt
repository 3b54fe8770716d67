//! Both ends of discovery (ISO 22510, Core, search and self description): who looks for gateways over a link, and the gateway that answers at its
//! port, where it names the address that it is bound to.
#![tactic(auto)]

mod answerer;
pub mod laws;
mod listening;
mod looking;
mod naming;
mod request;
mod search;

pub use answerer::Answerer;
pub use discovery::{About, Families, Finder, Inquiry};
pub use line_model::{Dialer, Link, LinkFault, Port, PortFault, PortPolled};
pub use looking::{Looked, look};
pub use naming::NOWHERE;
pub use search::{Findings, find};
