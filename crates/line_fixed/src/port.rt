//! A port of fixed data.

ghost use Rattle.std.specs.Prelude.{◌≡◌, ◌↔◌, [], Err, IfOk, OnErr, OnOk, slice_get};
ghost use Rattle.knx_model.specs.Outside.{one_more};
ghost use Rattle.line_model.specs.PortStory.{Adds, Gave, GivesOrNot, Recorded, TakesSo, after_call};
ghost use Rattle.line_model.specs.declared.outside.port.PortFault.TheVariants.{Failed};
ghost use Rattle.line_fixed.specs.Fixed.{AnswersPort, FailsAtPort, took, with_answer, with_entry};
ghost use Rattle.line_fixed.specs.PortItems.{told};

use crate::next::{LONGEST_GOT, copy_into};
use crate::port_items::{PortItem, PortItems};
use knx_model::{List, NoMemory, Octets, front};
use line_model::{Port, PortFault, PortPolled};
use std::alloc::Global;

/// A port that gives its datagrams with their senders in order, and then quiet waits, and takes what it is given. The calls with the numbers
/// in `fails`, from 1, fail and do nothing else, and so does each behind one that failed.
#[derive(Drop)]
pub struct FixedPort {
    alloc: Global,
    pub gives: List<(u32, Octets)>,
    pub fails: List<u64>,
    /// How many calls of `take` were answered.
    pub answered: usize,
    /// What was done.
    pub items: PortItems,
    pub calls: u64,
    pub faults: u64,
}

impl FixedPort {
    /// A port at which nothing was done yet.
    pub fn new(alloc: Global, gives: List<(u32, Octets)>, fails: List<u64>) -> FixedPort
        ensures given { (result.gives ≡ gives) × (result.fails ≡ fails) }
        ensures items { result.items ≡ [] }
        ensures counts { (result.answered ≡ 0) × (result.calls ≡ 0) × (result.faults ≡ 0) }
    {
        FixedPort {
            alloc,
            gives,
            fails,
            answered: 0,
            items: PortItems::new(alloc),
            calls: 0,
            faults: 0,
        }
    }

    /// Counts a call; it fails where it is listed, and behind one that failed.
    fn begin(&mut self) -> Result<(), PortFault>
        ensures after { self.new ≡ record self.old { calls = one_more self.old.calls; faults = after_call result self.old.faults } }
        ensures fails { (result ≡ Err Failed) ↔ FailsAtPort self.old.faults self.old.fails self.new.calls }
        ensures failed { OnErr result (result ≡ Err Failed) }
    {
        self.calls = self.calls.saturating_add(1);
        if self.faults > 0 || self.fails.as_slice().contains(&self.calls) {
            self.faults = self.faults.saturating_add(1);
            return Err(PortFault::Failed);
        }
        Ok(())
    }
}

/// What the next taking of a datagram, or of none, is in the record, and its answer.
fn taken(
    alloc: Global,
    gives: &[(u32, Octets)],
    answered: usize,
    into: &mut [u8; LONGEST_GOT],
    wait_ms: u32,
) -> Result<(PortItem, PortPolled), NoMemory>
    ensures item { IfOk result (λ r. told r.0 ≡ took (slice_get gives.now answered) wait_ms) }
    ensures answer { IfOk result (λ r. AnswersPort r.1 into.new (slice_get gives.now answered)) }
{
    match gives.get(answered) {
        Some((from, octets)) => {
            let from = *from;
            let got = Octets::from_slice(alloc, front(octets.as_slice(), LONGEST_GOT))?;
            let len = copy_into(octets.as_slice(), into);
            Ok((
                PortItem::Took { from, octets: got },
                PortPolled::Got { len, from },
            ))
        }
        None => Ok((PortItem::Quiet { ms: wait_ms }, PortPolled::Quiet)),
    }
}

impl Port for FixedPort {
    ghost use Rattle.line_model.specs.PortStory.{Recorded};

    ghost story = { λ p. Recorded p.items };

    ghost faults = { λ p. p.faults };

    fn take(&mut self, into: &mut [u8; LONGEST_GOT], wait_ms: u32) -> Result<PortPolled, PortFault>
        ensures taken { TakesSo result into.new wait_ms (Recorded self.old.items) (Recorded self.new.items) }
        ensures counts { self.new.faults ≡ after_call result self.old.faults }
        ensures sound { OnOk result (self.old.faults ≡ 0) }
        // a call takes the next datagram or waits quietly, or it fails and does nothing
        ensures after { self.new ≡ record self.old { calls = one_more self.old.calls; faults = after_call result self.old.faults; answered = with_answer result self.old.answered; items = with_entry result (took (slice_get self.old.gives self.old.answered) wait_ms) self.old.items } }
        ensures fails { (result ≡ Err Failed) ↔ FailsAtPort self.old.faults self.old.fails self.new.calls }
        ensures answer { IfOk result (λ polled. AnswersPort polled into.new (slice_get self.old.gives self.old.answered)) }
    {
        self.begin()?;
        let (item, polled) = taken(
            self.alloc,
            self.gives.as_slice(),
            self.answered,
            into,
            wait_ms,
        )?;
        self.items.add(item)?;
        self.answered = self.answered.saturating_add(1);
        Ok(polled)
    }

    fn give(&mut self, to: u32, octets: &[u8]) -> Result<(), PortFault>
        ensures given { OnOk result (Adds (Gave to octets.now) (Recorded self.old.items) (Recorded self.new.items)) }
        ensures failed { OnErr result (GivesOrNot to octets.now (Recorded self.old.items) (Recorded self.new.items)) }
        ensures counts { self.new.faults ≡ after_call result self.old.faults }
        ensures sound { OnOk result (self.old.faults ≡ 0) }
        ensures after { self.new ≡ record self.old { calls = one_more self.old.calls; faults = after_call result self.old.faults; items = with_entry result (Gave to octets.now) self.old.items } }
        ensures fails { (result ≡ Err Failed) ↔ FailsAtPort self.old.faults self.old.fails self.new.calls }
    {
        self.begin()?;
        let octets = Octets::from_slice(self.alloc, octets)?;
        self.items.add(PortItem::Gave { to, octets })?;
        Ok(())
    }
}
