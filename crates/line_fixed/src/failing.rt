//! A link of which one call fails, and each behind it.

ghost use Rattle.std.specs.Prelude.{◌≡◌, ◌≢◌, ◌≤◌, Err, Ok, OnErr, OnOk};
ghost use Rattle.knx_model.specs.Outside.{one_more};
ghost use Rattle.line_model.specs.LinkStory.{IsPlace, IsTime, Renews, RenewsOrNot, Sends, SendsOrNot};
ghost use Rattle.line_model.specs.Polled.{PollsSo, after_call, none_failed};
ghost use Rattle.line_model.specs.declared.outside.link.LinkFault.TheVariants.{Failed};

use line_model::{FaultCounts, Link, LinkFault, Polled};

/// A link that passes every call on to another until one fails: that with the number `fails_at`, from 1, fails, and each behind one that failed or found
/// no memory, and none of these is passed on. It tells what the other tells.
#[derive(Drop)]
pub struct FailingLink<L: Link> {
    pub link: L,
    pub fails_at: u64,
    pub calls: u64,
    /// How many calls failed, and how many found no memory, those that were passed on too.
    pub faults: FaultCounts,
}

impl<L: Link> FailingLink<L> {
    /// A link of which no call was made yet.
    pub fn new(link: L, fails_at: u64) -> FailingLink<L>
        ensures given { (result.link ≡ link) × (result.fails_at ≡ fails_at) }
        ensures counts { (result.calls ≡ 0) × (result.faults ≡ none_failed) }
    {
        FailingLink {
            link,
            fails_at,
            calls: 0,
            faults: FaultCounts::none(),
        }
    }

    /// Counts a call; it fails where it is the one that does, and behind one that failed.
    fn begin(&mut self) -> Result<(), LinkFault>
        ensures after { self.new ≡ record self.old { calls = one_more self.old.calls; faults = after_call result self.old.faults } }
        ensures fails { OnErr result ((result ≡ Err Failed) × (self.old.faults ≡ none_failed → self.new.calls ≡ self.old.fails_at)) }
        ensures passes { OnOk result ((self.old.faults ≡ none_failed) × (self.new.calls ≢ self.old.fails_at)) }
    {
        self.calls = self.calls.saturating_add(1);
        if self.calls == self.fails_at || !self.faults.is_none() {
            return self.faults.count(Err(LinkFault::Failed));
        }
        Ok(())
    }
}

impl<L: Link> Link for FailingLink<L> {
    ghost story = { λ f. L.story f.link };

    ghost script = { λ f. L.script f.link };

    ghost clock = { λ f. L.clock f.link };

    ghost place = { λ f. L.place f.link };

    ghost faults = { λ f. f.faults };

    fn send(&mut self, octets: &[u8]) -> Result<(), LinkFault>
        ensures sent { OnOk result (Sends octets.now (L.story self.old.link) (L.story self.new.link)) }
        ensures failed { OnErr result (SendsOrNot octets.now (L.story self.old.link) (L.story self.new.link)) }
        ensures counts { self.new.faults ≡ after_call result self.old.faults }
        ensures sound { OnOk result (self.old.faults ≡ none_failed) }
        ensures time { L.clock self.new.link ≡ L.clock self.old.link }
        ensures events { L.place self.old.link ≤ L.place self.new.link }
        ensures script { L.script self.new.link ≡ L.script self.old.link }
        // the one call fails, and each behind one that failed, and isn't passed on; of another that fails the link's count rose
        ensures after { self.new ≡ record self.old { link = self.new.link; calls = one_more self.old.calls; faults = after_call result self.old.faults } }
        ensures fails { self.new.calls ≡ self.old.fails_at → (result ≡ Err Failed) × (self.new.link ≡ self.old.link) }
        ensures over { self.old.faults ≢ none_failed → (result ≡ Err Failed) × (self.new.link ≡ self.old.link) }
        ensures passes { self.old.faults ≡ none_failed → self.new.calls ≢ self.old.fails_at → L.faults self.new.link ≡ after_call result (L.faults self.old.link) }
    {
        self.begin()?;
        let answer = self.link.send(octets);
        self.faults.count(answer)
    }

    fn renew(&mut self) -> Result<(), LinkFault>
        ensures renewed { OnOk result (Renews (L.story self.old.link) (L.story self.new.link)) }
        ensures failed { OnErr result (RenewsOrNot (L.story self.old.link) (L.story self.new.link)) }
        ensures counts { self.new.faults ≡ after_call result self.old.faults }
        ensures sound { OnOk result (self.old.faults ≡ none_failed) }
        ensures time { L.clock self.new.link ≡ L.clock self.old.link }
        ensures events { L.place self.old.link ≤ L.place self.new.link }
        ensures script { L.script self.new.link ≡ L.script self.old.link }
        ensures after { self.new ≡ record self.old { link = self.new.link; calls = one_more self.old.calls; faults = after_call result self.old.faults } }
        ensures fails { self.new.calls ≡ self.old.fails_at → (result ≡ Err Failed) × (self.new.link ≡ self.old.link) }
        ensures over { self.old.faults ≢ none_failed → (result ≡ Err Failed) × (self.new.link ≡ self.old.link) }
        ensures passes { self.old.faults ≡ none_failed → self.new.calls ≢ self.old.fails_at → L.faults self.new.link ≡ after_call result (L.faults self.old.link) }
    {
        self.begin()?;
        let answer = self.link.renew();
        self.faults.count(answer)
    }

    fn poll(&mut self, into: &mut [u8; 512], wait_ms: u32) -> Result<Polled, LinkFault>
        ensures polled { PollsSo result into.new wait_ms (L.clock self.new.link) (L.story self.old.link) (L.story self.new.link) }
        ensures counts { self.new.faults ≡ after_call result self.old.faults }
        ensures sound { OnOk result (self.old.faults ≡ none_failed) }
        ensures time { L.clock self.old.link ≤ L.clock self.new.link }
        ensures events { L.place self.old.link ≤ L.place self.new.link }
        ensures script { L.script self.new.link ≡ L.script self.old.link }
        ensures after { self.new ≡ record self.old { link = self.new.link; calls = one_more self.old.calls; faults = after_call result self.old.faults } }
        ensures fails { self.new.calls ≡ self.old.fails_at → (result ≡ Err Failed) × (self.new.link ≡ self.old.link) }
        ensures over { self.old.faults ≢ none_failed → (result ≡ Err Failed) × (self.new.link ≡ self.old.link) }
        ensures passes { self.old.faults ≡ none_failed → self.new.calls ≢ self.old.fails_at → L.faults self.new.link ≡ after_call result (L.faults self.old.link) }
    {
        self.begin()?;
        let answer = self.link.poll(into, wait_ms);
        self.faults.count(answer)
    }

    fn now(&self) -> u64
        ensures value { result ≡ L.clock self.now.link }
        ensures told { IsTime result (L.story self.now.link) }
    {
        self.link.now()
    }

    fn at(&self) -> u64
        ensures value { result ≡ L.place self.now.link }
        ensures told { IsPlace result (L.story self.now.link) }
    {
        self.link.at()
    }
}
