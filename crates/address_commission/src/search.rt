//! The search for the units in programming mode.

ghost use Rattle.std.specs.Prelude.{◌≡◌, OnOk, None, false, true};
ghost use Rattle.line_model.specs.Moments.{moments};
ghost use Rattle.address_talk.specs.Ends.{after_step};
ghost use Rattle.address_commission.specs.Calls.{TalkFails};
ghost use Rattle.address_commission.specs.Listening.{Begins, IsOut, Listens, SearchedSo};
ghost use Rattle.address_talk.specs.Rounds.{rounds};
ghost use Rattle.address_commission.specs.Exact.{WhereClock};
ghost use Rattle.tunnel_link.specs.Rights.{WhereTold};

use crate::ask::ask;
use crate::ear::{Ear, Heard};
use address_talk::AssignFault;
use address_world::Asked;
use knx_model::IndAddr;
use line_model::Link;
use std::sync::Wait;
use tunnel_link::Tunnel;

/// Reads addresses until somebody answers, three times at most.
pub fn search<R: Wait, L: Link>(
    rt: &R,
    tunnel: &mut Tunnel<L>,
    ear: &mut Ear,
    wanted: IndAddr,
) -> Result<(), AssignFault>
    requires stands { tunnel.old.known.fault ≡ None }
    requires begins { WhereTold Begins (L.story tunnel.old.link) }
    requires listens { WhereClock (Listens wanted ear.old) (L.story tunnel.old.link) }
    ensures searched { OnOk result (WhereTold (λ places. SearchedSo wanted ear.new.heard (rounds (moments places))) (L.story tunnel.new.link)) }
    ensures out { OnOk result (WhereClock (IsOut wanted ear.new) (L.story tunnel.new.link)) }
    ensures fails { TalkFails wanted (L.story tunnel.new.link) result }
    ensures stands { OnOk result (tunnel.new.known.fault ≡ None) }
    ensures counts { L.faults tunnel.new.link ≡ after_step result (L.faults tunnel.old.link) }
    ensures script { L.script tunnel.new.link ≡ L.script tunnel.old.link }
{
    ask(rt, tunnel, ear, wanted, Asked::Read)?;
    if is_somebody(ear.heard) {
        return Ok(());
    }
    ask(rt, tunnel, ear, wanted, Asked::Read)?;
    if is_somebody(ear.heard) {
        return Ok(());
    }
    ask(rt, tunnel, ear, wanted, Asked::Read)
}

/// Whether somebody answered.
fn is_somebody(heard: Heard) -> bool
    ensures nobody { result ≡ false → heard ≡ Heard.Nobody }
    ensures somebody { result ≡ true → ¬ (heard ≡ Heard.Nobody) }
{
    !matches!(heard, Heard::Nobody)
}
