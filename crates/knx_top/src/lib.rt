//! The top call: all that the program does, from its words to its exit status.
#![tactic(auto)]

mod call;
mod commands;
mod line;
mod shown;
mod watched;

pub use address_sim::AddressBus;
pub use bus_sim::SimBus;
pub use call::knx;
pub use call_words::Status;
pub use commands::words_ask;
pub use line_model::Report;
pub use report_text::NO_MEMORY;
