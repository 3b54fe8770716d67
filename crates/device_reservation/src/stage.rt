//! How far a job is.

/// A job is taken once, and ends once.
#[derive(Clone, Copy)]
pub enum Stage {
    Untaken,
    /// By this worker.
    Held(u8),
    Over,
}
