//! The simulated bus on which individual addresses are given (ISO/IEC 14543-3-1 and 3-5): units behind a tunnel, of which a text says what is lost. It is
//! driven as a link, and tells the world behind it.
#![tactic(auto)]

mod bus;
mod carry;
mod driving;
mod events;
mod frames;
mod going;
mod happened;
mod laws;
mod link;
mod losses;
mod noted;
mod poll;
mod run;
mod units;

pub use address_world::{AddressLink, IndAddr, Unit, UnitLoss, UnitScript};
pub use bus::AddressBus;
pub use laws::{
    a_bus_that_loses_nothing_is_calm, a_text_without_losses_loses_nothing,
    what_stays_is_all_that_it_began_with,
};
pub use line_model::{Link, LinkFault, Polled};
