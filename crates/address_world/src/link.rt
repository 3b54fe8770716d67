//! A link to a bus on which individual addresses are given.

use line_model::Link;

/// A link that may tell of the world of individual addresses behind it. Where it does, the start is fresh, the events are legal, and what it tells
/// as a link is the record of the events.
pub trait AddressLink: Link {
    ghost use Rattle.address_world.specs.AddressStory.{AddressStory, Agrees};

    /// What it tells of the world behind it.
    ghost told: { Self → AddressStory };

    /// It tells truly. It does nothing.
    fn tells(&self)
        ensures { Agrees (told self.now) (Self.story self.now) };
}
