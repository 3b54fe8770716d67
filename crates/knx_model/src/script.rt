//! The lines of a script.

ghost use Rattle.std.specs.Prelude.{◌≡◌};

use crate::address::{GroupAddr, IndAddr};
use crate::frames::Value;

/// What is asked of a group by a telegram: its value, or to take one that was written or answered.
#[derive(Debug, Drop, PartialEq, Eq)]
pub enum GroupService {
    Read,
    Write(Value),
    Response(Value),
}

impl GroupService {
    /// The same service.
    pub fn copied(&self) -> GroupService
        ensures { result ≡ self.now }
    {
        match self {
            GroupService::Read => GroupService::Read,
            GroupService::Write(value) => GroupService::Write(value.copied()),
            GroupService::Response(value) => GroupService::Response(value.copied()),
        }
    }
}

/// What a line of a script says. The counts N are at least 1.
#[derive(Drop, PartialEq, Eq)]
pub enum ScriptWhat {
    /// `lose up N`: the N-th datagram that the client sends is lost.
    LoseUp(u32),
    /// `lose down N`: the N-th datagram that the gateway sends is lost.
    LoseDown(u32),
    /// `repeat up N`: the N-th datagram that the client sends is delivered twice in a row.
    RepeatUp(u32),
    /// `repeat down N`: the N-th datagram that the gateway sends is delivered twice in a row.
    RepeatDown(u32),
    /// `lose to D N`: the N-th frame on the bus for the device alone is lost for it.
    LoseTo(IndAddr, u32),
    /// `lose from D N`: the N-th frame that the device sends is lost for the gateway.
    LoseFrom(IndAddr, u32),
    /// `repeat to D N`: the device gets the N-th frame for it alone twice in a row.
    RepeatTo(IndAddr, u32),
    /// `cut D N K`: power goes in the device's N-th write and returns before the next event; the first K octets of the written
    /// range are new, and from 1 octet on load state and segment length too.
    Cut {
        device: IndAddr,
        n: u32,
        k: u32,
    },
    /// `worn D N`: where the device's N-th write is a memory write, each octet becomes the complement of what was sent.
    Worn(IndAddr, u32),
    /// `close D N`: the device closes its connection after the N-th frame for it alone that it took.
    CloseAfter(IndAddr, u32),
    /// `refuse N HH`: the N-th connect request that reaches the gateway is answered with this status, 01 to FF.
    Refuse {
        n: u32,
        status: u8,
    },
    /// `drop channel N`: the gateway closes the channel after the N-th tunnelling request that it acted on.
    DropChannel(u32),
    /// `off D`: the device is without power for the whole run.
    Off(IndAddr),
    /// `standard D`: the device is a standard one, which takes no extended frame.
    Standard(IndAddr),
    /// `group GA V` or, after all jobs have ended, `then group GA V`: the group telegram is sent.
    Group {
        after: bool,
        group: GroupAddr,
        service: GroupService,
    },
}

/// A line of a script, and its number, from 1.
#[derive(Drop)]
pub struct ScriptLine {
    pub line: u32,
    pub what: ScriptWhat,
}
