//! What a device is at the end of a run.

/// What the final content of a device is, beside the project's.
#[derive(Clone, Copy, Drop)]
pub enum Case {
    /// It stands for the project's meaning.
    New,
    /// The four objects are Loaded, with another content.
    Old,
    /// The device doesn't run.
    Stopped,
}
