//! Why a run ends without its end.

use knx_model::{IndAddr, NoMemory};

/// How a try to get a channel failed.
#[derive(Clone, Copy, Drop)]
pub enum Try {
    /// The connect response had this status.
    Status(u8),
    /// There was none within 10,000 ms.
    NoAnswer,
}

/// Why a run ends without its end.
#[derive(Clone, Copy, Drop)]
pub enum HubFault {
    /// There was no memory: none for the run, or the link's count of such answers rose.
    NoMemory(NoMemory),
    /// The link's count of failed calls rose.
    LinkFailed,
    /// Three tries in turn to get a channel failed, the first one first.
    GatewayRefused([Try; 3]),
    /// So many datagrams came that the run was given up.
    Flooded,
    /// A job's device isn't on the tunnel's line.
    WrongLine { device: IndAddr, tunnel: IndAddr },
}

impl From<NoMemory> for HubFault {
    ghost use Rattle.line_model.specs.declared.fault.HubFault.{HubFault};
    ghost use Rattle.std.specs.Prelude.{◌≡◌};

    ghost from_gives = { λ _ fault. fault ≡ HubFault.NoMemory tt };

    fn from(error: NoMemory) -> HubFault {
        HubFault::NoMemory(error)
    }
}
