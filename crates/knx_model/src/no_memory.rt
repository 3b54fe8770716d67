//! The answer for want of memory.

use std::alloc::{AllocError, AllocFailed};
use std::marker::Model;

/// There was no memory. It holds the refused growth that it came of, so that nobody can answer it to whom no growth was refused;
/// contracts see nothing of that.
#[derive(Clone, Copy, Debug, Drop, PartialEq, Eq)]
pub struct NoMemory {
    refused: AllocError,
}

impl Model for NoMemory {
    ghost use Rattle.std.specs.Prelude.{alloc_error};

    ghost Value = { Unit {0} };

    ghost view = { λ _. tt };

    ghost inverse = { λ _. record { refused = alloc_error } };
}

impl From<AllocError> for NoMemory {
    fn from(refused: AllocError) -> NoMemory {
        NoMemory { refused }
    }
}

impl<T: Drop> From<AllocFailed<T>> for NoMemory {
    fn from(failed: AllocFailed<T>) -> NoMemory {
        NoMemory::from(AllocError::from(failed))
    }
}
