//! What a hub leaves.

use knx_model::List;
use line_model::{HubFault, Link, LogEntry};

/// What a hub leaves: its link, and what it tells of the run.
#[derive(Drop)]
pub struct HubEnd<L: Link> {
    pub link: L,
    /// The oldest entry first.
    pub log: List<LogEntry>,
    /// How many indications were counted as missed.
    pub missed: u64,
    /// How many datagrams were dropped.
    pub dropped: u64,
    pub fault: Option<HubFault>,
}
