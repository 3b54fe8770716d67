//! A link of fixed data.

ghost use Rattle.std.specs.Prelude.{◌≡◌, ◌≤◌, ◌↔◌, ◌+◌, ◌<◌, ℕ, [], Err, IfOk, OnErr, OnOk, length, option_copied, slice_get};
ghost use Rattle.knx_model.specs.Outside.{greatest_count, one_more};
ghost use Rattle.line_model.specs.LinkStory.{IsPlace, IsTime, Recorded, Renews, RenewsOrNot, Sends, SendsOrNot, newest_time};
ghost use Rattle.line_model.specs.Polled.{PollsSo, after_call, none_failed};
ghost use Rattle.line_model.specs.Record.{Put, Renewed, entry};
ghost use Rattle.line_model.specs.declared.outside.link.LinkFault.TheVariants.{Failed};
ghost use Rattle.line_fixed.specs.Entries.{told};
ghost use Rattle.line_fixed.specs.Fixed.{Answers, Fails, brought, clock_by, lasts, next_of, with_answer, with_entry};

use crate::entries::Entries;
use crate::item::Item;
use crate::next::{LONGEST_GOT, copy_into, next_of};
use knx_model::{List, NoMemory, Octets, front};
use line_model::{FaultCounts, Link, LinkFault, Polled};
use std::alloc::Global;

/// A link that gives its datagrams in order, and then its last one for ever or quiet waits. It takes no time but in a quiet wait, unless it is told how
/// long its polls last: then its clock runs. The calls with the numbers in `fails`, from 1, fail and do nothing else; so does one for which the record
/// has no room, and each behind one that failed or found no memory.
#[derive(Drop)]
pub struct FixedLink {
    alloc: Global,
    pub gives: List<Octets>,
    pub last: Option<Octets>,
    pub fails: List<u64>,
    /// How many milliseconds its polls last, in turn; those behind the end last as long as they should.
    pub lasting: List<u32>,
    /// How many polls were answered.
    pub answered: usize,
    /// What was done.
    pub entries: Entries,
    pub calls: u64,
    pub faults: FaultCounts,
}

impl FixedLink {
    /// A link on which nothing was done yet.
    pub fn new(
        alloc: Global,
        gives: List<Octets>,
        last: Option<Octets>,
        fails: List<u64>,
    ) -> FixedLink
        ensures given { (result.gives ≡ gives) × (result.last ≡ last) × (result.fails ≡ fails) × (result.lasting ≡ []) }
        ensures entries { result.entries ≡ [] }
        ensures counts { (result.answered ≡ 0) × (result.calls ≡ 0) × (result.faults ≡ none_failed) }
    {
        FixedLink {
            alloc,
            gives,
            last,
            fails,
            lasting: List::new(alloc),
            answered: 0,
            entries: Entries::new(alloc),
            calls: 0,
            faults: FaultCounts::none(),
        }
    }

    /// Counts a call that takes so many milliseconds, and answers the time after it; or it fails.
    fn begin(&mut self, wait_ms: u32) -> Result<u64, LinkFault>
        ensures after { self.new ≡ record self.old { calls = one_more self.old.calls } }
        ensures time { IfOk result (λ now. now ≡ newest_time self.old.entries + wait_ms) }
        ensures room { OnOk result (length self.old.entries < greatest_count) }
        ensures fails { (result ≡ Err Failed) ↔ Fails self.old.faults self.old.fails self.new.calls self.old.entries (newest_time self.old.entries + wait_ms) }
        ensures failed { OnErr result (result ≡ Err Failed) }
    {
        self.calls = self.calls.saturating_add(1);
        if !self.faults.is_none() || self.fails.as_slice().contains(&self.calls) {
            return Err(LinkFault::Failed);
        }
        match self.entries.time_of_next(wait_ms) {
            Some(now) => Ok(now),
            None => Err(LinkFault::Failed),
        }
    }

    /// The same link, whose polls last so many milliseconds, in turn.
    pub fn with_polls(self, lasting: List<u32>) -> FixedLink
        ensures { result ≡ record self { lasting = lasting } }
    {
        let mut link = self;
        link.lasting = lasting;
        link
    }

    /// How many milliseconds the next poll lasts.
    fn wait_of(&self, wait_ms: u32) -> u32
        ensures { result ≡ lasts (slice_get self.now.lasting self.now.answered) (next_of self.now.gives self.now.last self.now.answered) wait_ms }
    {
        if let Some(ms) = self.lasting.as_slice().get(self.answered) {
            return *ms;
        }
        match next_of(self.gives.as_slice(), &self.last, self.answered) {
            Some(_) => 0,
            None => wait_ms,
        }
    }

    /// Sends a datagram; a fault of it is still to be counted.
    fn put(&mut self, octets: &[u8]) -> Result<(), LinkFault>
        ensures sent { OnOk result (Sends octets.now (Recorded (clock_by self.old.lasting) self.old.entries) (Recorded (clock_by self.new.lasting) self.new.entries)) }
        ensures failed { OnErr result (SendsOrNot octets.now (Recorded (clock_by self.old.lasting) self.old.entries) (Recorded (clock_by self.new.lasting) self.new.entries)) }
        ensures time { newest_time self.new.entries ≡ newest_time self.old.entries }
        ensures after { self.new ≡ record self.old { calls = one_more self.old.calls; entries = with_entry result (entry (Put octets.now) (newest_time self.old.entries)) self.old.entries } }
        ensures events { length self.old.entries ≤ length self.new.entries }
        ensures fails { (result ≡ Err Failed) ↔ Fails self.old.faults self.old.fails self.new.calls self.old.entries (newest_time self.old.entries) }
    {
        let now = self.begin(0)?;
        let octets = Octets::from_slice(self.alloc, octets)?;
        self.entries.add(Item::Put(octets), now)?;
        Ok(())
    }

    /// Takes a new endpoint; a fault of it is still to be counted.
    fn take_endpoint(&mut self) -> Result<(), LinkFault>
        ensures renewed { OnOk result (Renews (Recorded (clock_by self.old.lasting) self.old.entries) (Recorded (clock_by self.new.lasting) self.new.entries)) }
        ensures failed { OnErr result (RenewsOrNot (Recorded (clock_by self.old.lasting) self.old.entries) (Recorded (clock_by self.new.lasting) self.new.entries)) }
        ensures time { newest_time self.new.entries ≡ newest_time self.old.entries }
        ensures after { self.new ≡ record self.old { calls = one_more self.old.calls; entries = with_entry result (entry Renewed (newest_time self.old.entries)) self.old.entries } }
        ensures events { length self.old.entries ≤ length self.new.entries }
        ensures fails { (result ≡ Err Failed) ↔ Fails self.old.faults self.old.fails self.new.calls self.old.entries (newest_time self.old.entries) }
    {
        let now = self.begin(0)?;
        self.entries.add(Item::Renewed, now)?;
        Ok(())
    }

    /// Waits for a datagram; a fault of it is still to be counted.
    fn wait(&mut self, into: &mut [u8; LONGEST_GOT], wait_ms: u32) -> Result<Polled, LinkFault>
        ensures polled { PollsSo result into.new wait_ms (newest_time self.new.entries) (Recorded (clock_by self.old.lasting) self.old.entries) (Recorded (clock_by self.new.lasting) self.new.entries) }
        ensures time { newest_time self.old.entries ≤ newest_time self.new.entries }
        ensures after { let next = next_of self.old.gives self.old.last self.old.answered in let now = brought next (newest_time self.old.entries + lasts (slice_get self.old.lasting self.old.answered) next wait_ms) in self.new ≡ record self.old { calls = one_more self.old.calls; answered = with_answer result self.old.answered; entries = with_entry result now self.old.entries } }
        ensures events { length self.old.entries ≤ length self.new.entries }
        ensures fails { let next = next_of self.old.gives self.old.last self.old.answered in let now = brought next (newest_time self.old.entries + lasts (slice_get self.old.lasting self.old.answered) next wait_ms) in (result ≡ Err Failed) ↔ Fails self.old.faults self.old.fails self.new.calls self.old.entries now.now }
        ensures answer { IfOk result (λ polled. Answers polled into.new (next_of self.old.gives self.old.last self.old.answered)) }
    {
        let now = self.begin(self.wait_of(wait_ms))?;
        let next = next_of(self.gives.as_slice(), &self.last, self.answered);
        let (item, polled) = brought(self.alloc, next, into)?;
        self.entries.add(item, now)?;
        self.answered = self.answered.saturating_add(1);
        Ok(polled)
    }
}

/// What a poll that brings a datagram, or none, is in the record, and its answer.
fn brought(
    alloc: Global,
    next: Option<&Octets>,
    into: &mut [u8; LONGEST_GOT],
) -> Result<(Item, Polled), NoMemory>
    ensures item { IfOk result (λ r. (until : ℕ) → told r.0 ≡ (brought (option_copied next.entry) until).what) }
    ensures answer { IfOk result (λ r. Answers r.1 into.new (option_copied next.entry)) }
{
    match next {
        Some(octets) => {
            let got = Octets::from_slice(alloc, front(octets.as_slice(), LONGEST_GOT))?;
            Ok((
                Item::Got(got),
                Polled::Got(copy_into(octets.as_slice(), into)),
            ))
        }
        None => Ok((Item::Quiet, Polled::Quiet)),
    }
}

impl Link for FixedLink {
    ghost use Rattle.std.specs.Prelude.{length, []};
    ghost use Rattle.line_model.specs.LinkStory.{Recorded, newest_time};
    ghost use Rattle.line_fixed.specs.Fixed.{clock_by};

    ghost story = { λ l. Recorded (clock_by l.lasting) l.entries };

    ghost script = { λ _. [] };

    ghost clock = { λ l. newest_time l.entries };

    ghost place = { λ l. length l.entries };

    ghost faults = { λ l. l.faults };

    fn send(&mut self, octets: &[u8]) -> Result<(), LinkFault>
        ensures sent { OnOk result (Sends octets.now (Recorded (clock_by self.old.lasting) self.old.entries) (Recorded (clock_by self.new.lasting) self.new.entries)) }
        ensures failed { OnErr result (SendsOrNot octets.now (Recorded (clock_by self.old.lasting) self.old.entries) (Recorded (clock_by self.new.lasting) self.new.entries)) }
        ensures counts { self.new.faults ≡ after_call result self.old.faults }
        ensures sound { OnOk result (self.old.faults ≡ none_failed) }
        ensures time { newest_time self.new.entries ≡ newest_time self.old.entries }
        ensures events { length self.old.entries ≤ length self.new.entries }
        // a call adds its entry, or fails and adds nothing
        ensures after { self.new ≡ record self.old { calls = one_more self.old.calls; faults = after_call result self.old.faults; entries = with_entry result (entry (Put octets.now) (newest_time self.old.entries)) self.old.entries } }
        ensures fails { (result ≡ Err Failed) ↔ Fails self.old.faults self.old.fails self.new.calls self.old.entries (newest_time self.old.entries) }
    {
        let sent = self.put(octets);
        self.faults.count(sent)
    }

    fn renew(&mut self) -> Result<(), LinkFault>
        ensures renewed { OnOk result (Renews (Recorded (clock_by self.old.lasting) self.old.entries) (Recorded (clock_by self.new.lasting) self.new.entries)) }
        ensures failed { OnErr result (RenewsOrNot (Recorded (clock_by self.old.lasting) self.old.entries) (Recorded (clock_by self.new.lasting) self.new.entries)) }
        ensures counts { self.new.faults ≡ after_call result self.old.faults }
        ensures sound { OnOk result (self.old.faults ≡ none_failed) }
        ensures time { newest_time self.new.entries ≡ newest_time self.old.entries }
        ensures events { length self.old.entries ≤ length self.new.entries }
        ensures after { self.new ≡ record self.old { calls = one_more self.old.calls; faults = after_call result self.old.faults; entries = with_entry result (entry Renewed (newest_time self.old.entries)) self.old.entries } }
        ensures fails { (result ≡ Err Failed) ↔ Fails self.old.faults self.old.fails self.new.calls self.old.entries (newest_time self.old.entries) }
    {
        let renewed = self.take_endpoint();
        self.faults.count(renewed)
    }

    fn poll(&mut self, into: &mut [u8; LONGEST_GOT], wait_ms: u32) -> Result<Polled, LinkFault>
        ensures polled { PollsSo result into.new wait_ms (newest_time self.new.entries) (Recorded (clock_by self.old.lasting) self.old.entries) (Recorded (clock_by self.new.lasting) self.new.entries) }
        ensures counts { self.new.faults ≡ after_call result self.old.faults }
        ensures sound { OnOk result (self.old.faults ≡ none_failed) }
        ensures time { newest_time self.old.entries ≤ newest_time self.new.entries }
        ensures events { length self.old.entries ≤ length self.new.entries }
        // a call brings the next datagram or a quiet wait, or it fails and brings nothing
        ensures after { let next = next_of self.old.gives self.old.last self.old.answered in let now = brought next (newest_time self.old.entries + lasts (slice_get self.old.lasting self.old.answered) next wait_ms) in self.new ≡ record self.old { calls = one_more self.old.calls; faults = after_call result self.old.faults; answered = with_answer result self.old.answered; entries = with_entry result now self.old.entries } }
        ensures fails { let next = next_of self.old.gives self.old.last self.old.answered in let now = brought next (newest_time self.old.entries + lasts (slice_get self.old.lasting self.old.answered) next wait_ms) in (result ≡ Err Failed) ↔ Fails self.old.faults self.old.fails self.new.calls self.old.entries now.now }
        ensures answer { IfOk result (λ polled. Answers polled into.new (next_of self.old.gives self.old.last self.old.answered)) }
    {
        let polled = self.wait(into, wait_ms);
        self.faults.count(polled)
    }

    fn now(&self) -> u64
        ensures value { result ≡ newest_time self.now.entries }
        ensures told { IsTime result (Recorded (clock_by self.now.lasting) self.now.entries) }
    {
        self.entries.newest_time()
    }

    fn at(&self) -> u64
        ensures value { result ≡ length self.now.entries }
        ensures told { IsPlace result (Recorded (clock_by self.now.lasting) self.now.entries) }
    {
        self.entries.len()
    }
}
