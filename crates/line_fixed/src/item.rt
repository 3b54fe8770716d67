//! What is done on a link, and how it is kept.

ghost use Rattle.std.specs.Prelude.{◌≡◌, ◌↔◌, IsTrue};
ghost use Rattle.line_fixed.specs.Entries.{told};

use knx_model::Octets;

/// What was done on a link.
#[derive(Drop)]
pub enum Item {
    /// A datagram was sent.
    Put(Octets),
    /// A new endpoint was taken.
    Renewed,
    /// A datagram was got.
    Got(Octets),
    /// A wait ended without a datagram.
    Quiet,
}

/// Equal entries in a row: what was done, at which time in milliseconds, and how many more times.
#[derive(Drop)]
pub struct Stretch {
    pub what: Item,
    pub now: u64,
    pub more: u64,
}

impl Item {
    /// Whether another is the same.
    pub(crate) fn is_same(&self, other: &Item) -> bool
        ensures { IsTrue result ↔ (told self.now ≡ told other.now) }
    {
        match (self, other) {
            (Item::Put(one), Item::Put(two)) => one.as_slice() == two.as_slice(),
            (Item::Got(one), Item::Got(two)) => one.as_slice() == two.as_slice(),
            (Item::Renewed, Item::Renewed) => true,
            (Item::Quiet, Item::Quiet) => true,
            _ => false,
        }
    }
}
