//! Waiting until a request is confirmed, and a listening is over.

ghost use Rattle.std.specs.Prelude.{◌≡◌, ◌≢◌, ◌⊎◌, ◌-◌, ◌<◌, ◌≤◌, OnOk, None, true, false};
ghost use Rattle.line_model.specs.Moments.{moments};
ghost use Rattle.line_model.specs.Waiting.{longest_poll};
ghost use Rattle.address_talk.specs.Ends.{after_step};
ghost use Rattle.address_commission.specs.Calls.{TalkGoes};
ghost use Rattle.address_talk.specs.Rounds.{SameRounds, rounds};
ghost use Rattle.address_commission.specs.Listening.{HasWaited, ListensFor};
ghost use Rattle.tunnel_link.specs.Rights.{WhereTold};

use crate::ear::Ear;
use crate::turn::{act, poll};
use address_talk::AssignFault;
use line_model::{LONGEST_POLL_MS, Link};
use std::sync::Wait;
use tunnel_link::Tunnel;

/// Waits until the last request is acknowledged and confirmed, and so many milliseconds in turn were quiet.
pub fn wait_out<R: Wait, L: Link>(
    rt: &R,
    tunnel: &mut Tunnel<L>,
    ear: &mut Ear,
    quiet_ms: u32,
) -> Result<(), AssignFault>
    requires stands { tunnel.old.known.fault ≡ None }
    requires for_it { WhereTold (λ places. ListensFor quiet_ms (rounds (moments places))) (L.story tunnel.old.link) }
    ensures goes { TalkGoes SameRounds ear.old ear.new (L.story tunnel.old.link) (L.story tunnel.new.link) result }
    ensures waited { OnOk result (WhereTold (HasWaited quiet_ms ear.new) (L.story tunnel.new.link)) }
    ensures stands { OnOk result (tunnel.new.known.fault ≡ None) }
    ensures counts { L.faults tunnel.new.link ≡ after_step result (L.faults tunnel.old.link) }
    ensures script { L.script tunnel.new.link ≡ L.script tunnel.old.link }
{
    for _ in rt.forever() {
        act(tunnel)?;
        if has_waited(tunnel, ear, quiet_ms) {
            return Ok(());
        }
        let longest_ms = rest(ear, tunnel.now(), quiet_ms);
        poll(tunnel, ear, longest_ms)?;
    }
    unreachable!()
}

/// Whether the last request is acknowledged and confirmed, and so many milliseconds in turn were quiet.
fn has_waited<L: Link>(tunnel: &Tunnel<L>, ear: &Ear, quiet_ms: u32) -> bool
    requires stands { tunnel.now.known.fault ≡ None }
    ensures waited { result ≡ true → WhereTold (HasWaited quiet_ms ear.now) (L.story tunnel.now.link) }
    ensures waits { result ≡ false → WhereTold (λ places. ¬ HasWaited quiet_ms ear.now places) (L.story tunnel.now.link) }
{
    let has_place = tunnel.has_place();
    let passed = tunnel.now().saturating_sub(ear.since);
    has_place && ear.confirmed.is_some() && passed >= u64::from(quiet_ms)
}

/// How long the next poll may last: no longer than the listening.
fn rest(ear: &Ear, now: u64, quiet_ms: u32) -> u32
    ensures listens { ear.now.confirmed ≢ None → now - ear.now.since < quiet_ms → result ≡ quiet_ms - (now - ear.now.since) }
    ensures awaits { (ear.now.confirmed ≡ None) ⊎ (quiet_ms ≤ now - ear.now.since) → result ≡ longest_poll }
{
    let passed = now.saturating_sub(ear.since);
    let quiet = u64::from(quiet_ms);
    if ear.confirmed.is_some() && passed < quiet {
        (quiet - passed) as u32
    } else {
        LONGEST_POLL_MS
    }
}
