//! What is due, and one poll.

ghost use Rattle.std.specs.Prelude.{◌≡◌, ◌<◌, IfErr, OnOk, None};
ghost use Rattle.knx_model.specs.declared.address.IndAddr.{IndAddr as Address};
ghost use Rattle.tunnel_link.specs.Adds.{HasActed};
ghost use Rattle.address_commission.specs.Calls.{EndsFor, TalkGoes};
ghost use Rattle.address_talk.specs.Ends.{after_step};
ghost use Rattle.address_commission.specs.Going.{Going};
ghost use Rattle.address_talk.specs.Rounds.{SameRounds};
ghost use Rattle.address_commission.specs.Listening.{AwaitsFor, Listens};
ghost use Rattle.address_commission.specs.declared.ear.Ear.{Ear as HeldEar};
ghost use Rattle.address_commission.specs.Exact.{WhereClock};
ghost use Rattle.tunnel_link.specs.Rights.{WhereTold};

use crate::ear::Ear;
use crate::told::told;
use address_talk::AssignFault;
use line_model::Link;
use tunnel_link::{Loss, Tunnel};

/// So many datagrams, awaited connection state responses aside, are the most that are taken.
const FLOOD: u64 = 16_777_216;

/// Does what is due by the time.
pub fn act<L: Link>(tunnel: &mut Tunnel<L>) -> Result<(), AssignFault>
    requires stands { tunnel.old.known.fault ≡ None }
    ensures goes { (e : HeldEar) → TalkGoes SameRounds e e (L.story tunnel.old.link) (L.story tunnel.new.link) result }
    ensures same { Going SameRounds (L.story tunnel.old.link) (L.story tunnel.new.link) }
    ensures acted { OnOk result (HasActed tunnel.new.known (L.story tunnel.new.link)) }
    ensures stands { OnOk result (tunnel.new.known.fault ≡ None) }
    ensures counts { L.faults tunnel.new.link ≡ after_step result (L.faults tunnel.old.link) }
    ensures script { L.script tunnel.new.link ≡ L.script tunnel.old.link }
{
    let acted = tunnel.act();
    let _ = told(tunnel, acted)?;
    Ok(())
}

/// Whether the channel stays.
fn kept(loss: Loss) -> Result<(), AssignFault>
    ensures stays { OnOk result (loss ≡ Loss.Stays) }
    ensures lost { IfErr result (λ fault. (fault ≡ AssignFault.TunnelLost) × ¬ (loss ≡ Loss.Stays)) }
{
    match loss {
        Loss::Stays => Ok(()),
        Loss::Ended | Loss::Told => Err(AssignFault::TunnelLost),
    }
}

/// Makes one poll of at most so many milliseconds.
pub fn poll<L: Link>(
    tunnel: &mut Tunnel<L>,
    ear: &mut Ear,
    longest_ms: u32,
) -> Result<(), AssignFault>
    requires stands { tunnel.old.known.fault ≡ None }
    requires acted { HasActed tunnel.old.known (L.story tunnel.old.link) }
    requires awaits { (wanted : Address) → WhereClock (Listens wanted ear.old) (L.story tunnel.old.link) → WhereTold (AwaitsFor wanted longest_ms) (L.story tunnel.old.link) }
    ensures goes { TalkGoes SameRounds ear.old ear.new (L.story tunnel.old.link) (L.story tunnel.new.link) result }
    ensures same { Going SameRounds (L.story tunnel.old.link) (L.story tunnel.new.link) }
    ensures stands { OnOk result (tunnel.new.known.fault ≡ None) }
    ensures counts { L.faults tunnel.new.link ≡ after_step result (L.faults tunnel.old.link) }
    ensures script { L.script tunnel.new.link ≡ L.script tunnel.old.link }
{
    let polled = tunnel.poll(longest_ms);
    let came = told(tunnel, polled)?;
    let now = tunnel.now();
    *ear = ear.hears(&came.what, now);
    tunnel.keeps();
    let taken = tunnel.taken();
    ended(taken, came.loss)
}

/// Whether the talk goes on after a poll.
fn ended(taken: u64, loss: Loss) -> Result<(), AssignFault>
    ensures goes_on { OnOk result ((taken < 16777216) × (loss ≡ Loss.Stays)) }
    ensures ends { IfErr result (λ why. EndsFor why taken loss) }
{
    if taken >= FLOOD {
        return Err(AssignFault::Flooded);
    }
    kept(loss)
}
