//! Why the program stops before a run.

ghost use Rattle.std.specs.Prelude.{◌≡◌};

use crate::input_file::InputFile;
use knx_model::{CatRefused, NoMemory, Octets, Refused};

/// Why the program stops before its report.
#[derive(Drop)]
pub enum Stop {
    /// The words aren't a command's.
    Usage,
    /// The file of this name isn't there.
    NotThere(Octets),
    /// The file of this name couldn't be read.
    ReadFailed(Octets),
    /// The catalogue is refused.
    CatalogueRefused(CatRefused),
    /// A project or the script is refused.
    Refused(InputFile, Refused),
    /// There was no memory.
    NoMemory(NoMemory),
}

impl From<NoMemory> for Stop {
    ghost use Rattle.call_words.specs.declared.stop.Stop.{Stop};

    ghost from_gives = { λ _ stop. stop ≡ Stop.NoMemory tt };

    fn from(error: NoMemory) -> Stop {
        Stop::NoMemory(error)
    }
}
