//! Why a catalogue is refused.

ghost use Rattle.std.specs.Prelude.{◌≡◌};
ghost use Rattle.knx_model.specs.Refusal.{catalogue_number, catalogue_word};

use crate::lists::Octets;
use crate::no_memory::NoMemory;

/// Why a catalogue is refused, each with its number but for want of memory. Models and parameters are named as they stand in the
/// document.
#[derive(Drop)]
pub enum CatRefused {
    /// There was no memory.
    NoMemory(NoMemory),
    /// 1: the octets are no TOML document.
    Toml,
    /// 2: a model's name, keys, kinds of values, or one of its numbers, sizes, flags or names isn't as it must be.
    Shape { model: Octets },
    /// 3: a parameter shares a bit with an earlier one.
    Overlap { model: Octets, parameter: Octets },
    /// 4: a parameter's width, place or values aren't in their ranges.
    Range { model: Octets, parameter: Octets },
    /// 5: the text has more than 4,194,304 octets.
    Long,
}

impl CatRefused {
    /// Its number, from 1; none for want of memory.
    pub fn number(&self) -> Option<u8>
        ensures { result ≡ catalogue_number self.now }
    {
        match self {
            CatRefused::NoMemory(_) => None,
            CatRefused::Toml => Some(1),
            CatRefused::Shape { .. } => Some(2),
            CatRefused::Overlap { .. } => Some(3),
            CatRefused::Range { .. } => Some(4),
            CatRefused::Long => Some(5),
        }
    }

    /// Its word, as it is printed.
    pub fn word(&self) -> &'static str
        ensures { result.now ≡ catalogue_word self.now }
    {
        match self {
            CatRefused::NoMemory(_) => "NoMemory",
            CatRefused::Toml => "Toml",
            CatRefused::Shape { .. } => "Shape",
            CatRefused::Overlap { .. } => "Overlap",
            CatRefused::Range { .. } => "Range",
            CatRefused::Long => "Long",
        }
    }
}

impl From<NoMemory> for CatRefused {
    ghost use Rattle.knx_model.specs.declared.catalogue.refused.CatRefused.{CatRefused};

    ghost from_gives = { λ _ e. e ≡ CatRefused.NoMemory tt };

    fn from(error: NoMemory) -> CatRefused {
        CatRefused::NoMemory(error)
    }
}
