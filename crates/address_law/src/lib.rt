//! The law of individual addresses where nothing is lost: what comes of giving one is what the units at the start determine.
#![tactic(auto)]

ghost use Rattle.std.specs.Prelude.{List, map, Result};
ghost use Rattle.knx_model.specs.declared.address.IndAddr.{IndAddr as Address};
ghost use Rattle.line_model.specs.LinkStory.{Exact};
ghost use Rattle.line_model.specs.Record.{counted};
ghost use Rattle.line_model.specs.Renews.{AcknowledgesRightly, RenewsRightly};
ghost use Rattle.line_model.specs.Sendings.{SendsRightly};
ghost use Rattle.address_world.specs.AddressLegal.{IsFresh, IsLegal};
ghost use Rattle.address_world.specs.AddressStory.{record_of};
ghost use Rattle.address_world.specs.AddressWorld.{AddressEvent, AddressWorld, replay};
ghost use Rattle.address_talk.specs.Ends.{EndsSo, HasThreeTries};
ghost use Rattle.address_talk.specs.declared.assigned.AssignFault.{AssignFault as Fault};
ghost use Rattle.address_talk.specs.declared.assigned.Assigned.{Assigned as Answer};
ghost use Rattle.address_world.specs.Shown.{shown};
ghost use Rattle.address_law.specs.Calm.{AreCalm};
ghost use Rattle.address_law.specs.Determined.{IsDetermined};

/// Over every order of the events of a calm bus, and a client that gives an address as `assign` does: it is told what the units at the start determine, and at
/// the end just the unit that is to have the wanted address has got it. The channel isn't lost, and no try to get one fails.
pub fn the_units_determine_what_comes_of_it()
    ensures { (wanted : Address) (start : AddressWorld) (events : List AddressEvent) (came : Result Answer Fault) → HasThreeTries came → IsFresh start → IsLegal start events → AreCalm start events
        → RenewsRightly (record_of start events) → SendsRightly (record_of start events) → AcknowledgesRightly (record_of start events) → EndsSo wanted came Exact (counted (record_of start events))
        → IsDetermined wanted (map shown start.units) (map shown (replay start events).units) came }
{}
