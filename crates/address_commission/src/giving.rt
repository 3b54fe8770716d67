//! Giving an address.

ghost use Rattle.std.specs.Prelude.{◌≡◌, List, None, map};
ghost use Rattle.line_model.specs.LinkStory.{IsNewLink};
ghost use Rattle.line_model.specs.Record.{entries};
ghost use Rattle.address_world.specs.AddressStory.{Told};
ghost use Rattle.address_law.specs.Calm.{AreCalm};
ghost use Rattle.address_law.specs.Determined.{IsDetermined};
ghost use Rattle.address_world.specs.Shown.{shown};
ghost use Rattle.address_world.specs.AddressWorld.{AddressEvent, AddressWorld, replay};
ghost use Rattle.address_world.specs.Keeps.{AlwaysKeepsUnits, PutsOnly};
ghost use Rattle.address_commission.specs.Always.{KeepsChannel};
ghost use Rattle.address_talk.specs.Ends.{EndsSo, HasThreeTries};
ghost use Rattle.address_commission.specs.Counted.{CountsEnd};
ghost use Rattle.address_commission.specs.Exact.{WhereClock};
ghost use Rattle.tunnel_link.specs.Rights.{WhereTold};

use crate::close::close;
use crate::ear::Ear;
use crate::open::open;
use crate::talk::give;
use address_law::the_units_determine_what_comes_of_it;
use address_talk::{AssignFault, Assigned};
use address_world::{AddressLink, requests_are_those_that_were_put, units_keep_their_addresses};
use knx_model::IndAddr;
use line_model::Link;
use std::sync::Wait;
use tunnel_link::Tunnel;

/// Gives the wanted address to the one unit in programming mode, over a link on which nothing was done, and hands the link back.
pub fn assign<R: Wait, L: AddressLink>(
    rt: &R,
    link: L,
    wanted: IndAddr,
) -> (L, Result<Assigned, AssignFault>)
    requires { IsNewLink (L.story link) }
    ensures ends { WhereClock (EndsSo wanted result.1) (L.story result.0) }
    ensures channel { WhereTold KeepsChannel (L.story result.0) }
    ensures puts { WhereTold (λ places. PutsOnly wanted (entries places)) (L.story result.0) }
    ensures units { (start : AddressWorld) (events : List AddressEvent) → L.told result.0 ≡ Told start events → AlwaysKeepsUnits wanted start events }
    ensures determined { (start : AddressWorld) (events : List AddressEvent) → L.told result.0 ≡ Told start events → AreCalm start events → IsDetermined wanted (map shown start.units) (map shown (replay start events).units) result.1 }
    ensures counts { CountsEnd wanted result.1 (L.faults link) (L.faults result.0) (L.story result.0) }
    ensures script { L.script result.0 ≡ L.script link }
{
    units_keep_their_addresses();
    the_units_determine_what_comes_of_it();
    requests_are_those_that_were_put();
    let mut tunnel = Tunnel::begin(link);
    let result = talk(rt, &mut tunnel, wanted);
    tunnel.keeps();
    let link = tunnel.end();
    link.tells();
    (link, result)
}

/// The whole talk, from the connect request to the end of the channel.
fn talk<R: Wait, L: Link>(
    rt: &R,
    tunnel: &mut Tunnel<L>,
    wanted: IndAddr,
) -> Result<Assigned, AssignFault>
    requires stands { tunnel.old.known.fault ≡ None }
    requires new { IsNewLink (L.story tunnel.old.link) }
    ensures ends { WhereClock (EndsSo wanted result) (L.story tunnel.new.link) }
    ensures tries { HasThreeTries result }
    ensures counts { CountsEnd wanted result (L.faults tunnel.old.link) (L.faults tunnel.new.link) (L.story tunnel.new.link) }
    ensures script { L.script tunnel.new.link ≡ L.script tunnel.old.link }
{
    let mut ear = Ear::new();
    open(rt, tunnel, &mut ear)?;
    let assigned = give(rt, tunnel, &mut ear, wanted)?;
    close(rt, tunnel)?;
    Ok(assigned)
}
