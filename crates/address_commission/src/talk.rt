//! The talk by which an address is given.

ghost use Rattle.std.specs.Prelude.{◌≡◌, IfOk, OnOk, None, Some};
ghost use Rattle.address_talk.specs.Ends.{AnsweredBy, after_step};
ghost use Rattle.address_commission.specs.Calls.{TalkFails};
ghost use Rattle.address_commission.specs.Listening.{Begins, FoundSo, Listens, SureSo, TriedBy};
ghost use Rattle.address_commission.specs.Exact.{WhereClock};
ghost use Rattle.tunnel_link.specs.Rights.{WhereTold};

use crate::ask::ask;
use crate::ear::{Ear, Heard};
use crate::search::search;
use address_talk::{AssignFault, Assigned};
use address_world::Asked;
use knx_model::IndAddr;
use line_model::Link;
use std::sync::Wait;
use tunnel_link::Tunnel;

/// Gives the wanted address to the one unit that answers, where no other has it.
pub fn give<R: Wait, L: Link>(
    rt: &R,
    tunnel: &mut Tunnel<L>,
    ear: &mut Ear,
    wanted: IndAddr,
) -> Result<Assigned, AssignFault>
    requires stands { tunnel.old.known.fault ≡ None }
    requires begins { WhereTold Begins (L.story tunnel.old.link) }
    requires listens { WhereClock (Listens wanted ear.old) (L.story tunnel.old.link) }
    ensures gives { IfOk result (λ assigned. WhereClock (AnsweredBy wanted assigned) (L.story tunnel.new.link)) }
    ensures fails { TalkFails wanted (L.story tunnel.new.link) result }
    ensures stands { OnOk result (tunnel.new.known.fault ≡ None) }
    ensures counts { L.faults tunnel.new.link ≡ after_step result (L.faults tunnel.old.link) }
    ensures script { L.script tunnel.new.link ≡ L.script tunnel.old.link }
{
    search(rt, tunnel, ear, wanted)?;
    if let Some(assigned) = found(ear.heard, wanted) {
        return Ok(assigned);
    }
    ask(rt, tunnel, ear, wanted, Asked::Connect)?;
    let connected = ear.confirmed;
    ask(rt, tunnel, ear, wanted, Asked::Disconnect)?;
    if let Some(assigned) = tried(ear.heard, connected) {
        return Ok(assigned);
    }
    ask(rt, tunnel, ear, wanted, Asked::Write)?;
    ask(rt, tunnel, ear, wanted, Asked::Read)?;
    Ok(sure(ear.heard, wanted))
}

/// What came of the search; None where one unit answered, and not from the wanted address.
fn found(heard: Heard, wanted: IndAddr) -> Option<Assigned>
    ensures { FoundSo wanted heard result }
{
    match heard {
        Heard::Nobody => Some(Assigned::NoUnit),
        Heard::One(source) if source == wanted => Some(Assigned::Done),
        Heard::One(_) => None,
        Heard::Several(first, second) => Some(Assigned::Several { first, second }),
    }
}

/// What came of the T_Connect, with an error or without; None where no unit has the wanted address, and still one unit answered.
fn tried(heard: Heard, connected: Option<bool>) -> Option<Assigned>
    ensures { TriedBy heard connected result }
{
    match (heard, connected) {
        (Heard::Several(first, second), _) => Some(Assigned::Several { first, second }),
        (_, Some(false)) => Some(Assigned::Taken),
        _ => None,
    }
}

/// What came of the write.
fn sure(heard: Heard, wanted: IndAddr) -> Assigned
    ensures { SureSo wanted heard result }
{
    match heard {
        Heard::One(source) if source == wanted => Assigned::Done,
        Heard::Nobody | Heard::One(_) | Heard::Several(_, _) => Assigned::Unconfirmed,
    }
}
