//! The laws of a bus, each a function without a body whose contract is the law.

ghost use Rattle.std.specs.Prelude.{◌≡◌, List, []};
ghost use Rattle.address_law.specs.Calm.{AreCalm};
ghost use Rattle.address_sim.specs.Follows.{FollowsText};
ghost use Rattle.address_sim.specs.Stays.{lines_of};
ghost use Rattle.address_sim.specs.Told.{Begun};
ghost use Rattle.address_sim.specs.Undisturbed.{NothingLost};
ghost use Rattle.address_world.specs.AddressWorld.{AddressEvent, AddressWorld};
ghost use Rattle.address_world.specs.declared.unit.UnitLoss.{UnitLoss};

/// What stays of a bus says all that it began with.
pub fn what_stays_is_all_that_it_began_with()
    ensures { (one other : Begun) → lines_of one ≡ lines_of other → one ≡ other }
{}

/// A bus that follows its text, whatever that says, and lost nothing of it is calm.
pub fn a_bus_that_loses_nothing_is_calm()
    ensures { (losses : List UnitLoss) (start : AddressWorld) (events : List AddressEvent) → FollowsText losses start events → NothingLost events → AreCalm start events }
{}

/// One that follows a text without losses has lost nothing.
pub fn a_text_without_losses_loses_nothing()
    ensures { (start : AddressWorld) (events : List AddressEvent) → FollowsText [] start events → NothingLost events }
{}
