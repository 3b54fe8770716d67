//! The sorts of blocks that are read.

ghost use Rattle.std.specs.Prelude.{◌≡◌};
ghost use Rattle.discovery.specs.Sorts.{sort_of};

use crate::blocks::{information, service_families};

/// A sort of blocks.
#[derive(Clone, Copy)]
pub enum Sort {
    /// The device information: a block of its length and type.
    Information,
    /// The supported service families: a block of their type.
    Families,
}

impl Sort {
    /// Whether a block of this type and content is of this sort.
    pub fn takes(self, kind: u8, content: &[u8]) -> bool
        ensures { result ≡ sort_of self (record { kind = kind; content = content.now }) }
    {
        match self {
            Sort::Information => kind == information::TYPE && content.len() == information::OCTETS,
            Sort::Families => kind == service_families::TYPE,
        }
    }
}
