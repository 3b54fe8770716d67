//! What a site's list has.

use crate::relay::Relay;
use hub_core::Hub;
use line_model::{HubFault, Link, LogEntry, Watcher};
use std::snapshot::Snapshot;

/// What a site's list has: first the hub as it began, the relay and who watched then, then the entries of the hub's log, the oldest first, and at last why
/// nothing more is done. Contracts and proofs alone speak of it, and no value of it is made.
pub enum Item<L: Link, W: Watcher> {
    Origin(Snapshot<Hub<L>>, Snapshot<Relay>, Snapshot<W>),
    Told(LogEntry),
    Ended(HubFault),
}
