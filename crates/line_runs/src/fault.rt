//! Why the runs end early.

use knx_model::{NoMemory, Refused};
use line_model::LinkFault;
use std::alloc::{AllocError, AllocFailed};
use std::io;

/// There was no memory, the link failed, what a line begins with was refused, also for want of memory, a line of the input isn't a run, or input or
/// output failed.
#[derive(Debug, Drop)]
pub enum Fault {
    NoMemory(NoMemory),
    LinkFailed,
    Refused,
    Words,
    Io,
}

impl From<NoMemory> for Fault {
    fn from(error: NoMemory) -> Fault {
        Fault::NoMemory(error)
    }
}

impl From<AllocError> for Fault {
    fn from(error: AllocError) -> Fault {
        Fault::NoMemory(NoMemory::from(error))
    }
}

impl<T: Drop> From<AllocFailed<T>> for Fault {
    fn from(error: AllocFailed<T>) -> Fault {
        Fault::NoMemory(NoMemory::from(error))
    }
}

impl From<LinkFault> for Fault {
    fn from(error: LinkFault) -> Fault {
        match error {
            LinkFault::NoMemory(no_memory) => Fault::NoMemory(no_memory),
            LinkFault::Failed => Fault::LinkFailed,
        }
    }
}

impl From<Refused> for Fault {
    fn from(_: Refused) -> Fault {
        Fault::Refused
    }
}

impl From<io::Error> for Fault {
    fn from(_: io::Error) -> Fault {
        Fault::Io
    }
}
