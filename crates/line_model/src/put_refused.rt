//! Why an end of a tunnel puts no request.

/// Why an end of a tunnel puts no tunnelling request (ISO 22510, Tunnelling).
#[derive(Clone, Copy, Debug, Drop, PartialEq, Eq)]
pub enum PutRefused {
    /// A request is outstanding.
    Busy,
    /// There is no channel.
    NotUp,
}
