//! The end of the channel.

ghost use Rattle.std.specs.Prelude.{◌≡◌, ◌≢◌, ◌⊎◌, ◌+◌, ◌-◌, ◌<◌, ◌≤◌, ℕ, IfErr, IfOk, OnOk, None, false, true, List as Seq};
ghost use Rattle.knx_model.specs.declared.address.IndAddr.{IndAddr as Address};
ghost use Rattle.line_model.specs.Asks.{HasPlace};
ghost use Rattle.line_model.specs.ChannelLost.{answer_wait};
ghost use Rattle.line_model.specs.ClientView.{channel};
ghost use Rattle.line_model.specs.Leaves.{StaysOpen};
ghost use Rattle.line_model.specs.LinkStory.{newest_time};
ghost use Rattle.line_model.specs.Moments.{moments};
ghost use Rattle.line_model.specs.Polled.{one_failed};
ghost use Rattle.line_model.specs.Record.{Placed, entries};
ghost use Rattle.tunnel_link.specs.Adds.{Growing};
ghost use Rattle.tunnel_link.specs.Alone.{Each, EndsNone};
ghost use Rattle.tunnel_link.specs.Goes.{GoesOn};
ghost use Rattle.address_commission.specs.Calls.{ClosesSo, HasAwaited, LeavesSince, LeavesTo, LeftOn, PaceKept, got_one};
ghost use Rattle.address_talk.specs.Ends.{ComesLate, FailsSo, after_assign_fault, after_step};
ghost use Rattle.address_commission.specs.Going.{Going, GoingExact};
ghost use Rattle.address_talk.specs.Rounds.{has_lost};
ghost use Rattle.address_commission.specs.Exact.{WhereClock};
ghost use Rattle.tunnel_link.specs.Rights.{WhereTold};

use crate::told::told;
use address_talk::AssignFault;
use line_model::Link;
use std::sync::Wait;
use tunnel_link::{Came, Loss, Tunnel, What};

/// How long the answer to the disconnect request is awaited, in milliseconds.
const LEAVING_MS: u64 = 10_000;
/// How many datagrams, at most, are taken meanwhile.
const MOST_DATAGRAMS: u32 = 64;

/// Asks to end the channel, and waits for the answer. A failing link and a lost channel change nothing.
pub fn close<R: Wait, L: Link>(rt: &R, tunnel: &mut Tunnel<L>) -> Result<(), AssignFault>
    requires stands { tunnel.old.known.fault ≡ None }
    requires place { WhereTold (λ places. HasPlace (channel (entries places))) (L.story tunnel.old.link) }
    requires kept { WhereTold (λ places. has_lost (moments places) ≡ false) (L.story tunnel.old.link) }
    requires stays { WhereTold (λ places. StaysOpen (entries places)) (L.story tunnel.old.link) }
    ensures closes { (wanted : Address) → Going (ClosesSo wanted) (L.story tunnel.old.link) (L.story tunnel.new.link) }
    ensures paces { GoingExact PaceKept (L.story tunnel.old.link) (L.story tunnel.new.link) }
    ensures leaves { OnOk result (((L.faults tunnel.new.link ≡ L.faults tunnel.old.link) × LeavesTo (L.story tunnel.old.link) (L.story tunnel.new.link)) ⊎ (L.faults tunnel.new.link ≡ one_failed (L.faults tunnel.old.link))) }
    ensures fails { IfErr result (λ fault. WhereTold (FailsSo fault) (L.story tunnel.new.link)) }
    ensures late { IfErr result ComesLate }
    ensures counts { IfErr result (λ fault. L.faults tunnel.new.link ≡ after_assign_fault fault (L.faults tunnel.old.link)) }
    ensures script { L.script tunnel.new.link ≡ L.script tunnel.old.link }
{
    match leave(rt, tunnel) {
        Err(AssignFault::LinkFailed) => Ok(()),
        left => left,
    }
}

/// Asks to end the channel, and awaits the response.
fn leave<R: Wait, L: Link>(rt: &R, tunnel: &mut Tunnel<L>) -> Result<(), AssignFault>
    requires stands { tunnel.old.known.fault ≡ None }
    requires place { WhereTold (λ places. HasPlace (channel (entries places))) (L.story tunnel.old.link) }
    requires kept { WhereTold (λ places. has_lost (moments places) ≡ false) (L.story tunnel.old.link) }
    requires stays { WhereTold (λ places. StaysOpen (entries places)) (L.story tunnel.old.link) }
    ensures closes { (wanted : Address) → Going (ClosesSo wanted) (L.story tunnel.old.link) (L.story tunnel.new.link) }
    ensures paces { GoingExact PaceKept (L.story tunnel.old.link) (L.story tunnel.new.link) }
    ensures leaves { OnOk result (LeavesTo (L.story tunnel.old.link) (L.story tunnel.new.link)) }
    ensures fails { IfErr result (λ fault. WhereTold (FailsSo fault) (L.story tunnel.new.link)) }
    ensures late { IfErr result (λ fault. fault ≢ AssignFault.LinkFailed → ComesLate fault) }
    ensures counts { L.faults tunnel.new.link ≡ after_step result (L.faults tunnel.old.link) }
    ensures script { L.script tunnel.new.link ≡ L.script tunnel.old.link }
{
    let began = tunnel.now();
    let left = tunnel.leave();
    let _ = told(tunnel, left)?;
    await_response(rt, tunnel, began)
}

/// Awaits the answer to the disconnect request that was sent at this time.
fn await_response<R: Wait, L: Link>(
    rt: &R,
    tunnel: &mut Tunnel<L>,
    began: u64,
) -> Result<(), AssignFault>
    requires stands { tunnel.old.known.fault ≡ None }
    ensures closes { (wanted : Address) → Going (ClosesSo wanted) (L.story tunnel.old.link) (L.story tunnel.new.link) }
    ensures paces { GoingExact PaceKept (L.story tunnel.old.link) (L.story tunnel.new.link) }
    ensures awaited { OnOk result ((talk : Seq Placed) → newest_time (entries talk) ≡ began → WhereClock (LeavesSince 64 talk) (L.story tunnel.old.link) → WhereClock (HasAwaited talk) (L.story tunnel.new.link)) }
    ensures grows { GoesOn (L.story tunnel.old.link) (L.story tunnel.new.link) }
    ensures alone { Growing (Each EndsNone) (L.story tunnel.old.link) (L.story tunnel.new.link) }
    ensures fails { IfErr result (λ fault. WhereTold (FailsSo fault) (L.story tunnel.new.link)) }
    ensures late { IfErr result (λ fault. fault ≢ AssignFault.LinkFailed → ComesLate fault) }
    ensures counts { L.faults tunnel.new.link ≡ after_step result (L.faults tunnel.old.link) }
    ensures script { L.script tunnel.new.link ≡ L.script tunnel.old.link }
{
    let mut left = MOST_DATAGRAMS;
    for _ in rt.forever() {
        let passed = tunnel.now().saturating_sub(began);
        if left == 0 || passed >= LEAVING_MS {
            return Ok(());
        }
        let came = waits(tunnel, (LEAVING_MS - passed) as u32)?;
        if !stays(came.loss) {
            return Ok(());
        }
        left = left.saturating_sub(got_one(&came.what));
    }
    unreachable!()
}

/// Does what is due, and makes one poll of at most so many milliseconds.
fn waits<L: Link>(tunnel: &mut Tunnel<L>, longest_ms: u32) -> Result<Came, AssignFault>
    requires stands { tunnel.old.known.fault ≡ None }
    ensures closes { (wanted : Address) → Going (ClosesSo wanted) (L.story tunnel.old.link) (L.story tunnel.new.link) }
    ensures paces { GoingExact PaceKept (L.story tunnel.old.link) (L.story tunnel.new.link) }
    ensures awaits { IfOk result (λ came. (left : ℕ) (talk : Seq Placed) (now : ℕ) → WhereTold (λ places. now ≡ newest_time (entries places)) (L.story tunnel.old.link) → now + longest_ms ≤ newest_time (entries talk) + answer_wait
        → 1 ≤ left → WhereClock (LeavesSince left talk) (L.story tunnel.old.link) → WhereClock (LeftOn came left talk) (L.story tunnel.new.link)) }
    ensures stands { OnOk result (tunnel.new.known.fault ≡ None) }
    ensures grows { GoesOn (L.story tunnel.old.link) (L.story tunnel.new.link) }
    ensures alone { Growing (Each EndsNone) (L.story tunnel.old.link) (L.story tunnel.new.link) }
    ensures fails { IfErr result (λ fault. WhereTold (FailsSo fault) (L.story tunnel.new.link)) }
    ensures late { IfErr result (λ fault. fault ≢ AssignFault.LinkFailed → ComesLate fault) }
    ensures counts { L.faults tunnel.new.link ≡ after_step result (L.faults tunnel.old.link) }
    ensures script { L.script tunnel.new.link ≡ L.script tunnel.old.link }
{
    let acted = tunnel.act();
    let _ = told(tunnel, acted)?;
    let polled = tunnel.poll(longest_ms);
    told(tunnel, polled)
}

/// Whether the channel stays.
fn stays(loss: Loss) -> bool
    ensures stays { result ≡ true → loss ≡ Loss.Stays }
    ensures lost { result ≡ false → ¬ (loss ≡ Loss.Stays) }
{
    matches!(loss, Loss::Stays)
}

/// How many datagrams came.
fn got_one(what: &What) -> u32
    ensures { result ≡ got_one what.now }
{
    match what {
        What::Quiet => 0,
        What::Dropped | What::Tunnel | What::Up { .. } | What::Frame(_) => 1,
    }
}
