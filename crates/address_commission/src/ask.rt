//! One request, and its wait.

ghost use Rattle.std.specs.Prelude.{◌≡◌, OnOk, None};
ghost use Rattle.address_commission.specs.Calls.{AsksGoes, TalkFails};
ghost use Rattle.address_talk.specs.Ends.{after_step};
ghost use Rattle.address_commission.specs.Going.{AsksOne, Going};
ghost use Rattle.address_commission.specs.Listening.{IsOut, IsTurnTo, Listens, quiet_after};
ghost use Rattle.address_commission.specs.Exact.{WhereClock};
ghost use Rattle.tunnel_link.specs.Rights.{WhereTold};

use crate::ear::Ear;
use crate::frames::request_of;
use crate::told::told;
use crate::wait::wait_out;
use address_talk::AssignFault;
use address_world::Asked;
use knx_model::IndAddr;
use line_model::Link;
use std::sync::Wait;
use tunnel_link::Tunnel;

/// A listening ends where for so long nothing came, in milliseconds.
const LISTENING_MS: u32 = 3_000;

/// Puts a request, and waits until it is confirmed; after a read it listens too.
pub fn ask<R: Wait, L: Link>(
    rt: &R,
    tunnel: &mut Tunnel<L>,
    ear: &mut Ear,
    wanted: IndAddr,
    asked: Asked,
) -> Result<(), AssignFault>
    requires stands { tunnel.old.known.fault ≡ None }
    requires turn { WhereTold (IsTurnTo wanted asked) (L.story tunnel.old.link) }
    requires listens { WhereClock (Listens wanted ear.old) (L.story tunnel.old.link) }
    ensures moves { OnOk result (Going (AsksOne wanted asked) (L.story tunnel.old.link) (L.story tunnel.new.link)) }
    ensures fails { TalkFails wanted (L.story tunnel.new.link) result }
    ensures out { OnOk result (WhereClock (IsOut wanted ear.new) (L.story tunnel.new.link)) }
    ensures stands { OnOk result (tunnel.new.known.fault ≡ None) }
    ensures counts { L.faults tunnel.new.link ≡ after_step result (L.faults tunnel.old.link) }
    ensures script { L.script tunnel.new.link ≡ L.script tunnel.old.link }
{
    put(tunnel, ear, wanted, asked)?;
    wait_out(rt, tunnel, ear, quiet_after(asked))
}

/// Puts a request.
fn put<L: Link>(
    tunnel: &mut Tunnel<L>,
    ear: &mut Ear,
    wanted: IndAddr,
    asked: Asked,
) -> Result<(), AssignFault>
    requires stands { tunnel.old.known.fault ≡ None }
    requires turn { WhereTold (IsTurnTo wanted asked) (L.story tunnel.old.link) }
    ensures goes { AsksGoes wanted asked ear.old ear.new (L.story tunnel.old.link) (L.story tunnel.new.link) result }
    ensures stands { OnOk result (tunnel.new.known.fault ≡ None) }
    ensures counts { L.faults tunnel.new.link ≡ after_step result (L.faults tunnel.old.link) }
    ensures script { L.script tunnel.new.link ≡ L.script tunnel.old.link }
{
    let cemi = request_of(wanted, asked);
    *ear = ear.before(asked);
    let put = tunnel.put(&cemi);
    told(tunnel, put)
}

/// How long it is quiet before the next request, in milliseconds.
fn quiet_after(asked: Asked) -> u32
    ensures { result ≡ quiet_after asked }
{
    match asked {
        Asked::Read => LISTENING_MS,
        Asked::Connect | Asked::Disconnect | Asked::Write => 0,
    }
}
