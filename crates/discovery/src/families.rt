//! The service families that a gateway supports (ISO 22510, Core, supported service families).

ghost use Rattle.std.specs.Prelude.{◌≡◌, ◌<◌, ◌≤◌, [], ◌∷◌, ◌++◌, length};

use arrayvec::ArrayVec;
use std::marker::Model;

/// Service families, each with its version: as many as a block has room for, in the order in which they are told. Contracts see a list.
#[derive(Drop)]
pub struct Families {
    pairs: ArrayVec<(u8, u8), { Families::CAPACITY }>,
}

impl Model for Families {
    ghost use Rattle.std.specs.Prelude.{List, ℕ};

    ghost Value = { List (ℕ × ℕ) };

    ghost view = { λ f. f.pairs.items };
}

impl Families {
    /// The most pairs: a block has at most 255 octets, of which 2 are its length and its type.
    pub const CAPACITY: usize = 126;

    /// No families.
    pub fn new() -> Self
        ensures { result ≡ [] }
    {
        Families {
            pairs: ArrayVec::new(),
        }
    }

    /// Each family and its version.
    pub fn as_slice(&self) -> &[(u8, u8)]
        ensures value { result.now ≡ self.now }
        ensures fits { length self.now ≤ 126 }
    {
        self.pairs.as_slice()
    }

    /// Appends a family and its version.
    pub fn push(&mut self, family: u8, version: u8)
        requires { length self.old < 126 }
        ensures { self.new ≡ self.old ++ (family, version) ∷ [] }
    {
        self.pairs.push((family, version));
    }

    /// These families.
    pub fn from_slice(pairs: &[(u8, u8)]) -> Self
        requires { length pairs.now ≤ 126 }
        ensures { result ≡ pairs.now }
    {
        let mut all = ArrayVec::new();
        let _ = all.try_extend_from_slice(pairs);
        Families { pairs: all }
    }
}
