//! What an attempt comes to.

ghost use Rattle.std.specs.Prelude.{◌≡◌};

use knx_model::{ApduOctets, Sign};

/// An answer that isn't the expected one: the operation that was sent last, from 0, the answer, and the expected one, which is empty
/// where none, or any of a service, was awaited.
#[derive(Drop)]
pub struct Refusal {
    pub op: u32,
    pub got: ApduOctets,
    pub expected: ApduOctets,
}

impl Refusal {
    /// The same once more. It takes no memory.
    pub fn copied(&self) -> Refusal
        ensures { result ≡ self.now }
    {
        Refusal {
            op: self.op,
            got: self.got.copied(),
            expected: self.expected.copied(),
        }
    }
}

/// What an attempt comes to.
#[derive(Drop)]
pub enum Outcome {
    /// It ended before its plan's end, and the next one begins.
    Failed(Sign),
    /// The plan went through.
    Done,
    Refused(Refusal),
}
