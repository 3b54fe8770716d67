//! An event of a run, which only proofs know.

ghost use Rattle.std.specs.Borrow.{ftrue};
ghost use Rattle.std.specs.Prelude.{◌≡◌};
ghost use Rattle.address_world.specs.AddressWorld.{AddressEvent};
ghost use Rattle.address_sim.specs.EventCode.{event_code};
ghost use Rattle.address_sim.specs.Kept.{event_of};

use crate::happened::Happened;
use std::marker::Model;

/// An event that was noted. It has no octet, so nothing is stored of it when the program runs: which event it is, proofs alone know.
#[derive(Drop)]
pub struct Noted {
    pub ghost event: { AddressEvent } by { event_code },
}

impl Model for Noted {
    ghost also_owns = { λ _. ftrue };
}

// It owns nothing.
unsafe impl Send for Noted {}

impl Noted {
    /// This event is noted.
    pub fn of(_event: &Happened<'_>) -> Noted
        ensures { result.event ≡ event_of _event.now }
    {
        Noted {}
    }
}
