//! What a run tells.

use crate::fault::HubFault;
use crate::group::Indication;
use knx_model::{ApduOctets, List, Sign};

/// What an entry of the log tells. Jobs and group telegrams are numbered from 1.
#[derive(Drop)]
pub enum LogWhat {
    /// A worker took the job.
    Took(u32),
    /// The job's plan went through.
    Done(u32),
    /// The job's three attempts ended, each with its sign.
    Failed(u32, [Sign; 3]),
    /// An answer differed from the expected one.
    Refused {
        job: u32,
        /// The operation, from 0.
        op: u32,
        got: ApduOctets,
        /// Empty where no answer, or another service, was awaited.
        expected: ApduOctets,
    },
    /// The group telegram was sent and confirmed.
    Sent(u32),
    /// The channel was lost between the group telegram and its confirmation.
    Lost(u32),
}

/// An entry of the log.
#[derive(Drop)]
pub struct LogEntry {
    /// How many events, or entries of the record, there were.
    pub at: u64,
    /// The worker that made the call; 0 is the group thread.
    pub worker: u8,
    pub what: LogWhat,
}

/// What a run leaves.
#[derive(Drop)]
pub struct Report {
    pub log: List<LogEntry>,
    /// The group telegrams that were heard.
    pub heard: List<Indication>,
    /// How many of those heard are left out.
    pub missed: u64,
    /// How many datagrams were dropped.
    pub dropped: u64,
    pub fault: Option<HubFault>,
}
