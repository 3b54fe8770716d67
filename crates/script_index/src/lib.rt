//! What a script says of each place, found by a search in a sorted map: which datagram or frame is lost or repeated, which write is cut or worn,
//! and the like. Of two equal lines the earlier holds.
#![tactic(auto)]

mod index;
mod place;

pub use index::ScriptIndex;
pub use knx_model::{IndAddr, NoMemory, ScriptLine, ScriptWhat};
