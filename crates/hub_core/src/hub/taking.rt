//! What a poll brought, taken in.

ghost use Rattle.std.specs.Prelude.{◌≡◌, ◌||◌};
ghost use Rattle.hub_work.specs.Works.{SameBooks};
ghost use Rattle.hub_core.specs.Came.{CountsIn, CountsLoss, CountsTaken};
ghost use Rattle.hub_core.specs.Closes.{ClosesBy};
ghost use Rattle.hub_core.specs.Taking.{SameWork, DeliversIn, EndsSo, HeardIn, LosesIn, MeetsSo, TakesIn, is_got as got_one, is_taken as took_one};

use hub_work::{Work, moments_go_on};
use line_model::{HubFault, Indication};
use tunnel_link::{Came, Loss, What};

/// So many datagrams, awaited connection state responses aside, are the most of a run with unfinished jobs.
const FLOOD: u64 = 16_777_216;

/// What a poll did.
#[derive(Drop)]
pub struct Polled {
    /// Something moved.
    pub moved: bool,
    pub heard: Option<Indication>,
}

/// Takes in what a poll brought, and what became of the channel in it, at this time.
pub fn take_in(work: &mut Work, came: &Came, now: u64) -> Polled
    ensures books { SameWork work.old work.new }
    ensures fits { TakesIn came.now now work.old work.new }
    ensures heard { HeardIn came.now.what result.heard }
    ensures closes { ClosesBy (got_one came.now.what) came.now.loss now work.old.closing work.new.closing }
    ensures moved { result.moved ≡ (came.now.sent || took_one came.now.what) }
    ensures came { CountsIn came.now now work.old work.new }
{
    let heard = deliver(work, &came.what, now);
    lose(work, is_got(&came.what), came.loss, now);
    Polled {
        moved: came.sent || is_taken(&came.what),
        heard,
    }
}

/// Tells the work of a frame that came.
fn deliver(work: &mut Work, what: &What, now: u64) -> Option<Indication>
    ensures books { SameWork work.old work.new }
    ensures fits { DeliversIn what.now now work.old work.new }
    ensures closing { work.new.closing ≡ work.old.closing }
    ensures heard { HeardIn what.now result }
    ensures came { CountsTaken what.now work.old work.new }
{
    moments_go_on();
    match what {
        What::Frame(frame) => work.deliver(frame, now),
        What::Quiet | What::Dropped | What::Tunnel | What::Up { .. } => None,
    }
}

/// Tells the work of the loss of its channel, at this time, where it was lost, and how far the closing is then, where it has begun.
fn lose(work: &mut Work, got: bool, loss: Loss, now: u64)
    ensures books { SameWork work.old work.new }
    ensures fits { LosesIn loss now work.old work.new }
    ensures closes { ClosesBy got loss now work.old.closing work.new.closing }
    ensures came { CountsLoss loss now work.old work.new.crew }
{
    give_up(work, loss, now);
    closes(work, got, loss, now);
}

/// Tells the work of the loss of its channel, at this time, where it was lost.
fn give_up(work: &mut Work, loss: Loss, now: u64)
    ensures books { SameBooks work.old work.new }
    ensures fits { LosesIn loss now work.old work.new }
    ensures came { CountsLoss loss now work.old work.new.crew }
{
    moments_go_on();
    match loss {
        Loss::Stays => {}
        Loss::Ended | Loss::Told => work.lost(now),
    }
}

/// Tells the work for its closing that a datagram was got or wasn't, and what became of the channel.
fn closes(work: &mut Work, got: bool, loss: Loss, now: u64)
    ensures closes { ClosesBy got loss now work.old.closing work.new.closing }
    ensures rest { work.new ≡ record work.old { closing = work.new.closing } }
{
    match loss {
        Loss::Told => work.asked_to_leave(now),
        Loss::Stays | Loss::Ended if got => work.got(now),
        Loss::Stays | Loss::Ended => {}
    }
}

/// Whether a datagram was got.
fn is_got(what: &What) -> bool
    ensures { result ≡ got_one what.now }
{
    !matches!(what, What::Quiet)
}

/// Whether a datagram was got that acts on something.
fn is_taken(what: &What) -> bool
    ensures { result ≡ took_one what.now }
{
    !matches!(what, What::Quiet | What::Dropped)
}

/// Why the run ends after a poll, if so: at the first channel a job's device isn't on the tunnel's line, or so many datagrams were taken while a job
/// is unfinished.
pub fn ending(work: &Work, met: &mut bool, what: &What, taken: u64) -> Option<HubFault>
    ensures { EndsSo work.now met.old met.new what.now taken result }
{
    if let Some(fault) = wrong_line(work, met, what) {
        return Some(fault);
    }
    if work.is_unfinished() && taken >= FLOOD {
        return Some(HubFault::Flooded);
    }
    None
}

/// At the first channel each job's device is to be on the tunnel's line.
fn wrong_line(work: &Work, met: &mut bool, what: &What) -> Option<HubFault>
    ensures { MeetsSo work.now met.old met.new what.now result }
{
    match what {
        What::Up { tunnel } if !*met => {
            *met = true;
            let device = work.elsewhere(*tunnel)?;
            Some(HubFault::WrongLine {
                device,
                tunnel: *tunnel,
            })
        }
        _ => None,
    }
}
