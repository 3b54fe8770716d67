//! Files that are read by their names.

ghost use Rattle.std.specs.Prelude.{◌≡◌, ◌≢◌, ℕ, List, Err};
ghost use Rattle.knx_model.specs.Outside.{FilesNow, MayRead, Rose, one_more};
ghost use Rattle.knx_model.specs.declared.outside.files.FileFault.TheVariants.{Failed};

use crate::lists::Octets;
use crate::no_memory::NoMemory;
use std::alloc::Global;

/// Why a file wasn't read.
#[derive(Clone, Copy, Debug, Drop, PartialEq, Eq)]
pub enum FileFault {
    /// There is no file of this name.
    NotThere,
    /// The read failed.
    Failed,
    /// There was no memory.
    NoMemory(NoMemory),
}

impl From<NoMemory> for FileFault {
    ghost use Rattle.knx_model.specs.declared.outside.files.FileFault.{FileFault};

    ghost from_gives = { λ _ fault. fault ≡ FileFault.NoMemory tt };

    fn from(error: NoMemory) -> FileFault {
        FileFault::NoMemory(error)
    }
}

/// Files by name.
pub trait Files: Drop {
    /// What they tell. The counts never fall.
    ghost now: { Self → FilesNow };

    /// The first `limit` octets of the named file. A read that failed is counted with that name, and nothing else is counted.
    fn read(&mut self, alloc: Global, name: &str, limit: usize) -> Result<Octets, FileFault>
        ensures answer { MayRead ((now self.old).file name.now) limit result }
        ensures failed { result ≡ Err Failed → Rose ((now self.old).faults name.now) ((now self.new).faults name.now) }
        ensures still { result ≢ Err Failed → (other : List ℕ) → (now self.new).faults other ≡ (now self.old).faults other }
        ensures others { (other : List ℕ) → other ≢ name.now → (now self.new).faults other ≡ (now self.old).faults other }
        ensures stays { (other : List ℕ) → (now self.new).file other ≡ (now self.old).file other }
        ensures counted { (now self.new).reads ≡ one_more (now self.old).reads };
}
