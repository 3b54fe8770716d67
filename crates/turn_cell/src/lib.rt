//! A state that travels among seats, one at a time, and whose list only grows: whoever has the turn has the state, and what he gives back begins with what
//! he took. So threads work on one state in turns, and each of them knows what of its list is settled.
#![tactic(auto)]

mod logged;
mod rule;
mod seat;
mod turn;
mod view;

pub use knx_model::NoMemory;
pub use logged::Logged;
pub use seat::Seat;
pub use turn::Turn;
