//! The port where a gateway serves clients that it doesn't know.

ghost use Rattle.std.specs.Prelude.{◌≡◌, ℕ, OnOk, OnErr};
ghost use Rattle.line_model.specs.PortStory.{PortStory, Gave, Adds, TakesSo, GivesOrNot, after_call};

use knx_model::NoMemory;

/// A call of the port failed.
#[derive(Clone, Copy, Debug, Drop, PartialEq, Eq)]
pub enum PortFault {
    /// There was no memory.
    NoMemory(NoMemory),
    /// The port's count of faults rose.
    Failed,
}

impl From<NoMemory> for PortFault {
    ghost use Rattle.line_model.specs.declared.outside.port.PortFault.{PortFault};
    ghost use Rattle.std.specs.Prelude.{◌≡◌};

    ghost from_gives = { λ _ fault. fault ≡ PortFault.NoMemory tt };

    fn from(error: NoMemory) -> PortFault {
        PortFault::NoMemory(error)
    }
}

/// What was taken at the port.
#[derive(Clone, Copy, Debug, Drop, PartialEq, Eq)]
pub enum PortPolled {
    /// A datagram of so many octets, at most 512, and the client that it came from; longer ones are cut off there.
    Got { len: usize, from: u32 },
    /// The wait ended without one.
    Quiet,
}

/// Takes datagrams of clients and gives them those of the gateway. A port of which a call failed is over: it answers no call any more.
pub trait Port: Drop {
    ghost use Rattle.line_model.specs.PortStory.{PortStory};
    ghost use Rattle.std.specs.Prelude.{ℕ};

    /// What it tells of itself.
    ghost story: { Self → PortStory };

    /// How many calls failed.
    ghost faults: { Self → ℕ };

    /// Waits for a datagram, at most so many milliseconds.
    fn take(&mut self, into: &mut [u8; 512], wait_ms: u32) -> Result<PortPolled, PortFault>
        ensures taken { TakesSo result into.new wait_ms (story self.old) (story self.new) }
        ensures counts { faults self.new ≡ after_call result (faults self.old) }
        ensures sound { OnOk result (faults self.old ≡ 0) };

    /// Gives a datagram to a client.
    fn give(&mut self, to: u32, octets: &[u8]) -> Result<(), PortFault>
        ensures given { OnOk result (Adds (Gave to octets.now) (story self.old) (story self.new)) }
        ensures failed { OnErr result (GivesOrNot to octets.now (story self.old) (story self.new)) }
        ensures counts { faults self.new ≡ after_call result (faults self.old) }
        ensures sound { OnOk result (faults self.old ≡ 0) };
}
