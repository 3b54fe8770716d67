//! What a worker's turn answers.

/// What a worker's turn did. Jobs are numbered from 1.
#[derive(Clone, Copy, Drop)]
pub enum Turned {
    /// The worker holds this job from now on.
    Took(u32),
    /// A request was sent, or something that had come was taken in.
    Moved,
    /// Nothing: what the job awaits hasn't come, or the next frame can't be sent yet.
    Wait,
    Done(u32),
    Failed(u32),
    Refused(u32),
    /// Jobs remain, and each waits for its device or for an earlier job of it.
    Later,
    /// All are taken.
    NoMore,
}
