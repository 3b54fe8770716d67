//! A gateway's port at which it answers requests of discovery.

ghost use Rattle.std.specs.Prelude.{◌≡◌, ◌<◌, ◌≤◌, Err, IfErr, None, OnErr, OnOk, Some, length};
ghost use Rattle.line_model.specs.declared.outside.port.PortFault.{PortFault as Fault};
ghost use Rattle.line_model.specs.declared.outside.port.PortFault.TheVariants.{Failed as Broke};
ghost use Rattle.line_model.specs.PortStory.{Adds, Gave, GivesOrNot, TakesSo, after_call};
ghost use Rattle.discovery_ends.specs.Answering.{AllAnswered, FailsFor, HasNoRequest, answer_of, answerer_story, faults_with, refused_for, shown_story};
ghost use Rattle.discovery_ends.specs.Naming.{named_story};

use crate::naming::NamedPort;
use crate::request::{answer_of, request_in};
use discovery::{About, Inquiry};
use line_model::{Port, PortFault, PortPolled};
use std::marker::Model;

/// A port over another, at which each request of discovery is answered at once and told as a datagram without octets; all else is passed on, but
/// that the endpoint is named at which the gateway is bound. After an answer that failed each call fails with the same fault, and nothing more is
/// done at the other port.
#[derive(Drop)]
pub struct Answerer<P: Port> {
    port: NamedPort<P>,
    about: About,
    /// How an answer failed.
    failed: Option<PortFault>,
    /// How many calls were refused since the port had failed in it.
    refused: u64,
}

impl<P: Port> Model for Answerer<P> {
    ghost use Rattle.discovery_ends.specs.Answering.{Answering, Keeps};
    ghost use Rattle.discovery_ends.specs.Naming.{named_story};

    ghost Value = { Answering P };

    ghost view = { λ a. record { port = a.port; about = a.about; failed = a.failed; refused = a.refused } };

    ghost invariant = { λ a. Keeps a.about a.failed a.refused (P.faults a.port.port) (named_story a.port.own (P.story a.port.port)) };
}

impl<P: Port> Answerer<P> {
    /// Answers at a port for a gateway that is bound to the address (4) and port number (2) of these octets and tells this of itself, with at most
    /// 64 service families. What was taken at the port before is no request.
    #[tactic(auto, using(crate::proofs::Answered::none_at_first))]
    pub fn new(port: P, own: [u8; 6], about: About) -> Answerer<P>
        requires few { length about.families ≤ 64 }
        requires none { HasNoRequest (P.story port) }
        ensures { result ≡ record { port = record { port = port; own = own }; about = about; failed = None; refused = 0 } }
    {
        Answerer {
            port: NamedPort::new(port, own),
            about,
            failed: None,
            refused: 0,
        }
    }

    /// The port, once no more is to be answered.
    pub fn back(self) -> P
        ensures port { result ≡ self.port.port }
        // each request was answered at once, but the last where its answer failed; and then a call of this port failed, or memory was wanting
        ensures answered { AllAnswered self.about self.failed (named_story self.port.own (P.story result)) }
        ensures broke { self.failed ≡ Some Broke → 0 < P.faults result }
        // of calls that were refused there is one of this port that failed
        ensures refused { 0 < self.refused → 0 < P.faults result }
    {
        let Answerer {
            port,
            about: _,
            failed: _,
            refused: _,
        } = self;
        port.back()
    }

    /// How an answer failed, if so.
    pub fn failed(&self) -> Option<PortFault>
        ensures { result ≡ self.now.failed }
    {
        self.failed
    }

    /// Fails where an answer has failed, and counts that where the port had failed.
    fn begin(&mut self) -> Result<(), PortFault>
        ensures ok { OnOk result ((self.new ≡ self.old) × (self.old.failed ≡ None)) }
        ensures err { IfErr result (λ fault. (self.old.failed ≡ Some fault) × (self.new ≡ record self.old { refused = refused_for fault self.old.refused })) }
        ensures answered { AllAnswered self.new.about self.new.failed (named_story self.new.port.own (P.story self.new.port.port)) }
    {
        if let Some(fault) = self.failed {
            self.refused = refused_for(&fault, self.refused);
            return Err(fault);
        }
        Ok(())
    }
}

/// How many calls were refused since the port had failed, one more among them.
fn refused_for(fault: &PortFault, refused: u64) -> u64
    ensures { result ≡ refused_for fault.now refused }
{
    match fault {
        PortFault::Failed => refused.saturating_add(1),
        PortFault::NoMemory(_) => refused,
    }
}

/// Answers the request of a client. Where that fails, it is kept how.
fn answered<P: Port>(
    port: &mut NamedPort<P>,
    about: &About,
    failed: &mut Option<PortFault>,
    to: u32,
    inquiry: Inquiry,
) -> Result<(), PortFault>
    requires { length about.now.families ≤ 64 }
    ensures given { OnOk result (Adds (Gave to (answer_of about.now inquiry)) (named_story port.old.own (P.story port.old.port)) (named_story port.new.own (P.story port.new.port))) }
    ensures stands { OnOk result (failed.new ≡ failed.old) }
    ensures broken { OnErr result (GivesOrNot to (answer_of about.now inquiry) (named_story port.old.own (P.story port.old.port)) (named_story port.new.own (P.story port.new.port))) }
    ensures kept { IfErr result (λ fault. failed.new ≡ Some fault) }
    ensures counts { P.faults port.new.port ≡ after_call result (P.faults port.old.port) }
    ensures sound { OnOk result (P.faults port.old.port ≡ 0) }
    ensures own { port.new.own ≡ port.old.own }
{
    let answer = answer_of(about, inquiry);
    match port.give(to, answer.as_slice()) {
        Ok(()) => Ok(()),
        Err(fault) => {
            let kept = &fault;
            *failed = Some(*kept);
            Err(fault)
        }
    }
}

/// Takes a datagram at a port. A request is answered at once, and told as a datagram without octets.
#[tactic(auto, using(crate::proofs::Shown::answered_shown))]
fn taken<P: Port>(
    port: &mut NamedPort<P>,
    about: &About,
    failed: &mut Option<PortFault>,
    into: &mut [u8; 512],
    wait_ms: u32,
) -> Result<PortPolled, PortFault>
    requires few { length about.now.families ≤ 64 }
    requires stands { failed.old ≡ None }
    requires answered { AllAnswered about.now None (named_story port.old.own (P.story port.old.port)) }
    ensures taken { TakesSo result into.new wait_ms (shown_story about.now None (named_story port.old.own (P.story port.old.port))) (shown_story about.now failed.new (named_story port.new.own (P.story port.new.port))) }
    ensures answered { AllAnswered about.now failed.new (named_story port.new.own (P.story port.new.port)) }
    ensures broken { IfErr result (λ fault. FailsFor fault about.now failed.new (named_story port.old.own (P.story port.old.port)) (named_story port.new.own (P.story port.new.port))) }
    ensures stands { OnOk result (failed.new ≡ None) }
    ensures counts { P.faults port.new.port ≡ after_call result (P.faults port.old.port) }
    ensures sound { OnOk result (P.faults port.old.port ≡ 0) }
    ensures own { port.new.own ≡ port.old.own }
{
    let polled = port.take(into, wait_ms)?;
    let PortPolled::Got { len, from } = polled else {
        return Ok(polled);
    };
    match request_in(&into[..len]) {
        Some(inquiry) => {
            answered(port, about, failed, from, inquiry)?;
            Ok(PortPolled::Got { len: 0, from })
        }
        None => Ok(polled),
    }
}

impl<P: Port> Port for Answerer<P> {
    ghost use Rattle.discovery_ends.specs.Answering.{answerer_story, faults_with};

    ghost story = { λ a. answerer_story a.port.own a.about a.failed (P.story a.port.port) };

    ghost faults = { λ a. faults_with (P.faults a.port.port) a.refused };

    #[tactic(auto, using(crate::proofs::Refused::refused_counts, crate::proofs::Refused::below_counts, crate::proofs::Refused::sound_below, crate::proofs::Told::takes_told))]
    fn take(&mut self, into: &mut [u8; 512], wait_ms: u32) -> Result<PortPolled, PortFault>
        ensures taken { TakesSo result into.new wait_ms (answerer_story self.old.port.own self.old.about self.old.failed (P.story self.old.port.port)) (answerer_story self.new.port.own self.new.about self.new.failed (P.story self.new.port.port)) }
        ensures counts { faults_with (P.faults self.new.port.port) self.new.refused ≡ after_call result (faults_with (P.faults self.old.port.port) self.old.refused) }
        ensures sound { OnOk result (faults_with (P.faults self.old.port.port) self.old.refused ≡ 0) }
        ensures own { self.new.port.own ≡ self.old.port.own }
        ensures about { self.new.about ≡ self.old.about }
        // it fails only where the other port does; once an answer has failed, with that fault, and then nothing is done
        ensures below { self.old.failed ≡ None → P.faults self.new.port.port ≡ after_call result (P.faults self.old.port.port) }
        ensures answered { AllAnswered self.new.about self.new.failed (named_story self.new.port.own (P.story self.new.port.port)) }
        ensures broken { self.old.failed ≡ None → IfErr result (λ fault. FailsFor fault self.old.about self.new.failed (named_story self.old.port.own (P.story self.old.port.port)) (named_story self.new.port.own (P.story self.new.port.port))) }
        ensures stands { OnOk result ((self.old.failed ≡ None) × (self.new.failed ≡ None)) }
        ensures refused { (fault : Fault) → self.old.failed ≡ Some fault → (result ≡ Err fault) × (self.new ≡ record self.old { refused = refused_for fault self.old.refused }) }
    {
        self.begin()?;
        taken(&mut self.port, &self.about, &mut self.failed, into, wait_ms)
    }

    #[tactic(auto, using(crate::proofs::Told::gave_told, crate::proofs::Told::gave_or_not_told, crate::proofs::Refused::refused_counts, crate::proofs::Refused::below_counts, crate::proofs::Refused::sound_below))]
    fn give(&mut self, to: u32, octets: &[u8]) -> Result<(), PortFault>
        ensures given { OnOk result (Adds (Gave to octets.now) (answerer_story self.old.port.own self.old.about self.old.failed (P.story self.old.port.port)) (answerer_story self.new.port.own self.new.about self.new.failed (P.story self.new.port.port))) }
        ensures failed { OnErr result (GivesOrNot to octets.now (answerer_story self.old.port.own self.old.about self.old.failed (P.story self.old.port.port)) (answerer_story self.new.port.own self.new.about self.new.failed (P.story self.new.port.port))) }
        ensures counts { faults_with (P.faults self.new.port.port) self.new.refused ≡ after_call result (faults_with (P.faults self.old.port.port) self.old.refused) }
        ensures sound { OnOk result (faults_with (P.faults self.old.port.port) self.old.refused ≡ 0) }
        ensures below { self.old.failed ≡ None → P.faults self.new.port.port ≡ after_call result (P.faults self.old.port.port) }
        ensures own { self.new.port.own ≡ self.old.port.own }
        ensures about { self.new.about ≡ self.old.about }
        ensures others { self.old.failed ≡ None → self.new ≡ record self.old { port = self.new.port } }
        ensures refused { (fault : Fault) → self.old.failed ≡ Some fault → (result ≡ Err fault) × (self.new ≡ record self.old { refused = refused_for fault self.old.refused }) }
    {
        self.begin()?;
        self.port.give(to, octets)
    }
}
