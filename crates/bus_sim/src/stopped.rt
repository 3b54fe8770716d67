//! Why a call of a run stops, and why a serving breaks off.

use knx_model::NoMemory;
use line_model::PortFault;

/// Why a call of a run that is driven as a link stops.
#[derive(Drop)]
pub enum Stopped {
    /// There was no memory.
    NoMemory(NoMemory),
    /// The run has come to its end: its time is the last of 64 bits, 2^64 - 1 ms.
    AtEnd,
    /// The run serves clients at a port: it isn't driven as a link.
    Serves,
}

impl From<NoMemory> for Stopped {
    ghost use Rattle.bus_sim.specs.declared.stopped.Stopped.{Stopped};
    ghost use Rattle.std.specs.Prelude.{◌≡◌};

    ghost from_gives = { λ _ why. why ≡ Stopped.NoMemory tt };

    fn from(want: NoMemory) -> Stopped {
        Stopped::NoMemory(want)
    }
}

/// Why a serving breaks off.
#[derive(Drop)]
pub enum Broken {
    /// There was no memory.
    NoMemory(NoMemory),
    /// The run has come to its end.
    AtEnd,
    /// A call of the port failed.
    Port(PortFault),
}

impl From<NoMemory> for Broken {
    ghost use Rattle.bus_sim.specs.declared.stopped.Broken.{Broken};
    ghost use Rattle.std.specs.Prelude.{◌≡◌};

    ghost from_gives = { λ _ broken. broken ≡ Broken.NoMemory tt };

    fn from(want: NoMemory) -> Broken {
        Broken::NoMemory(want)
    }
}

impl From<PortFault> for Broken {
    ghost use Rattle.bus_sim.specs.declared.stopped.Broken.{Broken};
    ghost use Rattle.std.specs.Prelude.{◌≡◌};

    ghost from_gives = { λ fault broken. broken ≡ Broken.Port fault };

    fn from(fault: PortFault) -> Broken {
        Broken::Port(fault)
    }
}
