//! Opening the channel.

ghost use Rattle.std.specs.Prelude.{◌≡◌, OnOk, None};
ghost use Rattle.line_model.specs.Asks.{HasPlace};
ghost use Rattle.line_model.specs.ClientView.{channel};
ghost use Rattle.line_model.specs.Record.{entries};
ghost use Rattle.tunnel_link.specs.Adds.{HasActed};
ghost use Rattle.tunnel_link.specs.Rights.{WhereTold};
ghost use Rattle.address_talk.specs.Ends.{after_step};
ghost use Rattle.address_commission.specs.Calls.{TalkGoes};
ghost use Rattle.address_talk.specs.Rounds.{SameRounds};
ghost use Rattle.address_commission.specs.declared.ear.Ear.{Ear as HeldEar};

use crate::ear::Ear;
use crate::told::told;
use crate::turn::{act, poll};
use address_talk::AssignFault;
use line_model::{LONGEST_POLL_MS, Link};
use std::sync::Wait;
use tunnel_link::Tunnel;

/// Asks for a channel until one is open.
pub fn open<R: Wait, L: Link>(
    rt: &R,
    tunnel: &mut Tunnel<L>,
    ear: &mut Ear,
) -> Result<(), AssignFault>
    requires stands { tunnel.old.known.fault ≡ None }
    ensures goes { TalkGoes SameRounds ear.old ear.new (L.story tunnel.old.link) (L.story tunnel.new.link) result }
    ensures stands { OnOk result (tunnel.new.known.fault ≡ None) }
    ensures free { OnOk result (WhereTold (λ places. HasPlace (channel (entries places))) (L.story tunnel.new.link)) }
    ensures counts { L.faults tunnel.new.link ≡ after_step result (L.faults tunnel.old.link) }
    ensures script { L.script tunnel.new.link ≡ L.script tunnel.old.link }
{
    for _ in rt.forever() {
        act(tunnel)?;
        seek(tunnel)?;
        if tunnel.has_place() {
            return Ok(());
        }
        poll(tunnel, ear, LONGEST_POLL_MS)?;
    }
    unreachable!()
}

/// Asks for a channel, where none is open or sought.
fn seek<L: Link>(tunnel: &mut Tunnel<L>) -> Result<(), AssignFault>
    requires stands { tunnel.old.known.fault ≡ None }
    ensures goes { (e : HeldEar) → TalkGoes SameRounds e e (L.story tunnel.old.link) (L.story tunnel.new.link) result }
    ensures acted { OnOk result (HasActed tunnel.old.known (L.story tunnel.old.link) → HasActed tunnel.new.known (L.story tunnel.new.link)) }
    ensures stands { OnOk result (tunnel.new.known.fault ≡ None) }
    ensures counts { L.faults tunnel.new.link ≡ after_step result (L.faults tunnel.old.link) }
    ensures script { L.script tunnel.new.link ≡ L.script tunnel.old.link }
{
    let sought = tunnel.seek();
    let _ = told(tunnel, sought)?;
    Ok(())
}
