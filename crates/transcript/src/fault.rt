//! Why a transcript ends early.

use knx_model::NoMemory;
use std::alloc::{AllocError, AllocFailed};
use std::io;

/// There was no memory, the input or the output failed, or a word of a line that sets up a call isn't what it has to be.
#[derive(Debug, Drop)]
pub enum Fault {
    NoMemory(NoMemory),
    Io(io::Error),
    Words,
}

impl From<NoMemory> for Fault {
    fn from(error: NoMemory) -> Fault {
        Fault::NoMemory(error)
    }
}

impl From<AllocError> for Fault {
    fn from(error: AllocError) -> Fault {
        Fault::NoMemory(NoMemory::from(error))
    }
}

impl<T: Drop> From<AllocFailed<T>> for Fault {
    fn from(error: AllocFailed<T>) -> Fault {
        Fault::NoMemory(NoMemory::from(error))
    }
}

impl From<io::Error> for Fault {
    fn from(error: io::Error) -> Fault {
        Fault::Io(error)
    }
}
