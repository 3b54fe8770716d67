//! What a worker is given.

/// The answer to a worker that asks for a job.
#[derive(Clone, Copy, Debug, PartialEq, Eq)]
pub enum Taken {
    /// This job, from 1. It is the worker's now.
    Job(u32),
    /// Jobs remain, and each waits for its device or for an earlier job of it.
    Later,
    /// All are taken.
    NoMore,
}
