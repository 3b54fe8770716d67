//! The link between the client and its gateway.

ghost use Rattle.std.specs.Prelude.{◌≡◌, ◌≤◌, ℕ, OnOk, OnErr};
ghost use Rattle.line_model.specs.LinkStory.{Story, IsTime, IsPlace, Sends, SendsOrNot, Renews, RenewsOrNot};
ghost use Rattle.line_model.specs.Polled.{PollsSo, after_call, none_failed};

use knx_model::NoMemory;

/// A call of the link failed.
#[derive(Clone, Copy, Debug, Drop, PartialEq, Eq)]
pub enum LinkFault {
    /// There was no memory; the link's count of such answers rose.
    NoMemory(NoMemory),
    /// The link's count of failed calls rose.
    Failed,
}

impl From<NoMemory> for LinkFault {
    ghost use Rattle.line_model.specs.declared.outside.link.LinkFault.{LinkFault};
    ghost use Rattle.std.specs.Prelude.{◌≡◌};

    ghost from_gives = { λ _ fault. fault ≡ LinkFault.NoMemory tt };

    fn from(error: NoMemory) -> LinkFault {
        LinkFault::NoMemory(error)
    }
}

/// What a poll brought.
#[derive(Clone, Copy, Debug, Drop, PartialEq, Eq)]
pub enum Polled {
    /// A datagram of so many octets, at most 512; longer ones are cut off there.
    Got(usize),
    /// The wait ended without one.
    Quiet,
}

/// Sends datagrams to the gateway and gets those that come. Its clock is read in polls alone. A link that failed once, or found no memory, is over: it answers
/// no call any more. One that tells something of itself fails before its time or its place would pass the greatest number of 64 bits.
pub trait Link: Drop {
    ghost use Rattle.line_model.specs.LinkStory.{Story};
    ghost use Rattle.line_model.specs.Lines.{Script};
    ghost use Rattle.line_model.specs.declared.outside.fault_counts.FaultCounts.{FaultCounts};
    ghost use Rattle.std.specs.Prelude.{ℕ};

    /// What it tells of itself.
    ghost story: { Self → Story };

    /// The script that its line follows, empty where it follows none; it stays as it is.
    ghost script: { Self → Script };

    /// The last time that it read, in milliseconds: at the end of the last poll.
    ghost clock: { Self → ℕ };

    /// How many events there were; of a link that tells its record and no events, how many entries it has.
    ghost place: { Self → ℕ };

    /// How many calls failed, and how many answered that there was no memory.
    ghost faults: { Self → FaultCounts };

    /// Sends a datagram.
    fn send(&mut self, octets: &[u8]) -> Result<(), LinkFault>
        ensures sent { OnOk result (Sends octets.now (story self.old) (story self.new)) }
        ensures failed { OnErr result (SendsOrNot octets.now (story self.old) (story self.new)) }
        ensures counts { faults self.new ≡ after_call result (faults self.old) }
        ensures sound { OnOk result (faults self.old ≡ none_failed) }
        ensures time { clock self.new ≡ clock self.old }
        ensures events { place self.old ≤ place self.new }
        ensures script { script self.new ≡ script self.old };

    /// Takes a new endpoint.
    fn renew(&mut self) -> Result<(), LinkFault>
        ensures renewed { OnOk result (Renews (story self.old) (story self.new)) }
        ensures failed { OnErr result (RenewsOrNot (story self.old) (story self.new)) }
        ensures counts { faults self.new ≡ after_call result (faults self.old) }
        ensures sound { OnOk result (faults self.old ≡ none_failed) }
        ensures time { clock self.new ≡ clock self.old }
        ensures events { place self.old ≤ place self.new }
        ensures script { script self.new ≡ script self.old };

    /// Waits for a datagram. Meanwhile whatever is legal may happen on the line.
    fn poll(&mut self, into: &mut [u8; 512], wait_ms: u32) -> Result<Polled, LinkFault>
        ensures polled { PollsSo result into.new wait_ms (clock self.new) (story self.old) (story self.new) }
        ensures counts { faults self.new ≡ after_call result (faults self.old) }
        ensures sound { OnOk result (faults self.old ≡ none_failed) }
        ensures time { clock self.old ≤ clock self.new }
        ensures events { place self.old ≤ place self.new }
        ensures script { script self.new ≡ script self.old };

    /// The last time that was read, in milliseconds: that of the newest entry of what it tells.
    fn now(&self) -> u64
        ensures value { result ≡ clock self.now }
        ensures told { IsTime result (story self.now) };

    /// How many events there were; of a link that tells its record and no events, how many entries it has.
    fn at(&self) -> u64
        ensures value { result ≡ place self.now }
        ensures told { IsPlace result (story self.now) };
}
