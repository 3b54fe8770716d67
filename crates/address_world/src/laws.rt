//! The laws of the definitions, each a function without a body whose contract is the law.

ghost use Rattle.std.specs.Prelude.{List};
ghost use Rattle.address_world.specs.AddressLegal.{IsFresh};
ghost use Rattle.address_world.specs.AddressStory.{record_of};
ghost use Rattle.address_world.specs.AddressWorld.{AddressEvent, AddressWorld};
ghost use Rattle.address_world.specs.Keeps.{AllAskFirst, AlwaysKeepsUnits, PutsOnly};
ghost use Rattle.knx_model.specs.declared.address.IndAddr.{IndAddr as Address};
ghost use Rattle.line_model.specs.Record.{Entry};
ghost use Rattle.line_model.specs.Sendings.{SendsRightly};

/// Over every list of events, the legal ones among them, of a client that puts a read, a T_Connect and a T_Disconnect to the wanted address and a write of it alone: at
/// every moment each unit has the address that it began with, or is in programming mode and has the wanted one.
pub fn units_keep_their_addresses()
    ensures { (wanted : Address) (start : AddressWorld) (events : List AddressEvent) → IsFresh start → PutsOnly wanted (record_of start events) → AlwaysKeepsUnits wanted start events }
{}

/// A client that sends rightly has sent no request but those that it put for the first time, and these again.
pub fn requests_are_those_that_were_put()
    ensures { (wanted : Address) (r : List Entry) → SendsRightly r → AllAskFirst wanted r → PutsOnly wanted r }
{}
