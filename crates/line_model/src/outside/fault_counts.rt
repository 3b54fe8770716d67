//! How many calls failed, and how many found no memory.

ghost use Rattle.std.specs.Prelude.{◌≡◌, ◌≢◌, ◌↔◌, Err, IsTrue, OnErr, OnOk};
ghost use Rattle.line_model.specs.Dialled.{taking_back, with_link, with_port};
ghost use Rattle.line_model.specs.Polled.{after_call, none_failed, one_failed, one_wanting};
ghost use Rattle.line_model.specs.declared.outside.link.LinkFault.TheVariants.{Failed};

use crate::outside::link::LinkFault;

/// How many calls failed, and how many answered that there was no memory. Each count stands still at its greatest.
#[derive(Clone, Copy, Drop)]
pub struct FaultCounts {
    pub failed: u64,
    pub wanting: u64,
}

impl FaultCounts {
    /// No call failed yet.
    pub fn none() -> FaultCounts
        ensures { result ≡ none_failed }
    {
        FaultCounts {
            failed: 0,
            wanting: 0,
        }
    }

    /// Whether no call failed yet, and none found no memory.
    pub fn is_none(&self) -> bool
        ensures { IsTrue result ↔ self.now ≡ none_failed }
    {
        self.failed == 0 && self.wanting == 0
    }

    /// A call of a link begins. Behind one that failed, or found no memory, it is refused, and counted as one that failed.
    pub fn begin(&mut self) -> Result<(), LinkFault>
        ensures sound { OnOk result ((self.old ≡ none_failed) × (self.new ≡ self.old)) }
        ensures over { OnErr result ((self.old ≢ none_failed) × (result ≡ Err Failed)) }
        ensures counts { self.new ≡ after_call result self.old }
    {
        if self.is_none() {
            return Ok(());
        }
        self.count(Err(LinkFault::Failed))
    }

    /// Counts an answer, where it is a fault.
    pub fn count<T>(&mut self, answer: Result<T, LinkFault>) -> Result<T, LinkFault>
        ensures same { result ≡ answer }
        ensures after { self.new ≡ after_call answer self.old }
    {
        match answer {
            Ok(_) => {}
            Err(LinkFault::NoMemory(_)) => self.want(),
            Err(LinkFault::Failed) => self.fail(),
        }
        answer
    }

    /// Counts a call that failed.
    pub fn fail(&mut self)
        ensures { self.new ≡ one_failed self.old }
    {
        self.failed = self.failed.saturating_add(1);
    }

    /// Counts a call that found no memory.
    pub fn want(&mut self)
        ensures { self.new ≡ one_wanting self.old }
    {
        self.wanting = self.wanting.saturating_add(1);
    }

    /// Takes in those of a link that came back.
    pub fn take_link(&mut self, link: FaultCounts)
        ensures { self.new ≡ with_link link self.old }
    {
        self.failed = taking_back(self.failed, link.failed);
        self.wanting = taking_back(self.wanting, link.wanting);
    }

    /// Takes in how many calls of a port failed that came back.
    pub fn take_port(&mut self, faults: u64)
        ensures { self.new ≡ with_port faults self.old }
    {
        self.failed = taking_back(self.failed, faults);
    }
}

/// A count with that of what came back.
#[tactic(auto, using(crate::proofs::Taken::taken_back))]
fn taking_back(count: u64, faults: u64) -> u64
    ensures { result ≡ taking_back faults count }
{
    count.saturating_add(faults)
}
