//! The answer of a queue without room.

use line_model::Indication;

/// No place was free. The indication is handed back.
#[derive(Drop)]
pub struct Full {
    pub heard: Indication,
}
