//! An attempt that runs: what it is told.

ghost use Rattle.std.specs.Prelude.{◌≡◌, ℕ};
ghost use Rattle.knx_model.specs.Connection.{frame_in};
ghost use Rattle.knx_model.specs.Plans.{Plan};
ghost use Rattle.download_core.specs.JobPlans.{job_left};
ghost use Rattle.download_core.specs.Attempt.{Running, first_attempt, is_over, comes_to, answered, or_else, refusal};
ghost use Rattle.download_core.specs.Calls.{attempt_confirmed, phase_heard, owing};
ghost use Rattle.download_core.specs.Going.{gone_of};
ghost use Rattle.download_core.specs.Keeps.{phase_of, attempt_of, standing_of, last_sent, KeepsRun, KeepsPhase};

use crate::flight::Flight;
use crate::job_plan::JobPlan;
use crate::outcome::{Outcome, Refusal};
use crate::owed::Owed;
use crate::phase::Phase;
use crate::position::Position;
use crate::question::next_question;
use crate::suits::{is_wanted, wanted};
use knx_model::{ApduOctets, ClientConfirmed, ClientTook, IndAddr, PlanSource, Sign};
use transport_conn::ClientConn;

/// An attempt that runs.
#[derive(Drop)]
pub struct Run {
    pub conn: ClientConn,
    /// The number of the next service.
    pub number: u8,
    pub position: Position,
    /// How many operations were sent.
    pub sent: u32,
    pub owed: Owed,
    pub flight: Flight,
    /// The first answer that wasn't the expected one.
    pub wrong: Option<Refusal>,
}

impl Run {
    /// An attempt whose T_Connect is put now.
    pub fn begin(device: IndAddr) -> Run
        ensures value { (left : ℕ → Plan) → attempt_of left result ≡ first_attempt device (left 0) }
        ensures keeps { (left : ℕ → Plan) → KeepsRun left result }
    {
        Run {
            conn: ClientConn::begin(device),
            number: 0,
            position: Position::Next(0),
            sent: 0,
            owed: Owed::new(),
            flight: Flight::Frame,
            wrong: None,
        }
    }

    /// After a confirmation.
    #[tactic(auto, using(crate::proofs::Numbers::confirmed_number))]
    pub fn confirmed(mut self, error: bool, now: u64) -> Phase
        ensures next { (left : ℕ → Plan) → phase_of left result ≡ attempt_confirmed (attempt_of left self) self.flight error now }
        ensures keeps { (left : ℕ → Plan) → KeepsRun left self → KeepsPhase left result }
    {
        match self.flight {
            Flight::Nothing => Phase::Running(self),
            Flight::Frame => match self.conn.confirmed(error, now) {
                ClientConfirmed::NoCon => Phase::Ended(Outcome::Failed(Sign::NoCon)),
                ClientConfirmed::Up | ClientConfirmed::Timed => Phase::Running(Run {
                    flight: Flight::Nothing,
                    ..self
                }),
            },
            Flight::Reply => Phase::Running(Run {
                flight: Flight::Nothing,
                ..self
            }),
        }
    }

    /// After a frame of the device.
    #[tactic(auto, using(crate::proofs::Numbers::heard_keeps))]
    pub fn heard(mut self, plan: &mut JobPlan, tpdu: &[u8], now: u64) -> Phase
        requires { KeepsRun (job_left plan.old) self }
        ensures next { phase_of (job_left plan.new) result ≡ phase_heard (Running (attempt_of (job_left plan.old) self)) (frame_in tpdu.now) now }
        ensures keeps { KeepsPhase (job_left plan.new) result }
        ensures plan { job_left plan.new 0 ≡ job_left plan.old 0 }
    {
        let outcome = self.comes_to(plan, Sign::Closed);
        match self.conn.take(tpdu, now) {
            ClientTook::Dropped | ClientTook::Acked => Phase::Running(self),
            ClientTook::Answer { apdu, ack } => {
                Phase::Running(self.answered(plan, apdu).owing(&ack))
            }
            ClientTook::Again { ack } | ClientTook::Nak(ack) => Phase::Running(self.owing(&ack)),
            ClientTook::Closed { answer: None } => Phase::Ended(outcome),
            ClientTook::Closed { answer: Some(_) } => Phase::Closing {
                flight: self.flight,
                outcome,
            },
        }
    }

    /// After an answer, which goes on in the plan where it is the expected one.
    #[tactic(auto, using(crate::proofs::Numbers::one_back))]
    fn answered(self, plan: &mut JobPlan, got: ApduOctets) -> Run
        requires { KeepsRun (job_left plan.old) self }
        ensures next { attempt_of (job_left plan.new) result ≡ answered (attempt_of (job_left plan.old) self) got }
        ensures keeps { KeepsRun (job_left plan.new) result }
        ensures plan { job_left plan.new 0 ≡ job_left plan.old 0 }
    {
        match &self.position {
            Position::AnswerOf(question)
                if is_wanted(question.apdu.as_slice(), &question.expect, &got) => {
                plan.note(question.place, got.as_slice());
                let place = question.place + 1;
                Run {
                    position: Position::Next(place),
                    ..self
                }
            }
            Position::AnswerOf(question) => {
                let expected = wanted(&question.expect);
                self.gone_wrong(got, expected)
            }
            Position::Next(_) => self.gone_wrong(got, ApduOctets::new()),
        }
    }

    /// After an answer that isn't the expected one; the first stays.
    fn gone_wrong(self, got: ApduOctets, expected: ApduOctets) -> Run
        ensures { result ≡ record self { wrong = or_else self.wrong (refusal (last_sent self.position) got expected) } }
    {
        let refusal = Refusal {
            op: self.position.last(),
            got,
            expected,
        };
        Run {
            wrong: or_else(self.wrong, refusal),
            ..self
        }
    }

    /// After one more T_ACK or T_NAK is owed.
    fn owing(self, reply: &ApduOctets) -> Run
        ensures next { (left : ℕ → Plan) → attempt_of left result ≡ owing (attempt_of left self) self.conn reply.now }
        ensures keeps { (left : ℕ → Plan) → KeepsRun left self → KeepsRun left result }
    {
        let owed = self.owed.with(reply.as_slice());
        Run { owed, ..self }
    }

    /// What it comes to where this ends it.
    pub fn comes_to(&self, plan: &JobPlan, sign: Sign) -> Outcome
        ensures { result ≡ comes_to (attempt_of (job_left plan.now) self.now) sign }
    {
        if !self.conn.awaits_nothing() {
            return Outcome::Failed(sign);
        }
        match &self.wrong {
            Some(wrong) => Outcome::Refused(wrong.copied()),
            None if self.is_over(plan) => Outcome::Done,
            None => Outcome::Failed(sign),
        }
    }

    /// How many operations are over; None where an answer wasn't the expected one.
    pub fn gone(&self) -> Option<u32>
        ensures { (left : ℕ → Plan) → result ≡ gone_of (attempt_of left self.now) }
    {
        if self.wrong.is_some() {
            return None;
        }
        match &self.position {
            Position::Next(_) => Some(self.sent),
            Position::AnswerOf(_) => Some(self.sent.saturating_sub(1)),
        }
    }

    /// Whether all operations are over.
    fn is_over(&self, plan: &JobPlan) -> bool
        ensures { result ≡ is_over (standing_of (job_left plan.now) self.now.position) }
    {
        match &self.position {
            Position::Next(place) => next_question(plan, *place).is_none(),
            Position::AnswerOf(_) => false,
        }
    }
}

/// The first of what went wrong.
fn or_else(first: Option<Refusal>, later: Refusal) -> Option<Refusal>
    ensures { result ≡ or_else first later }
{
    match first {
        None => Some(later),
        Some(first) => Some(first),
    }
}
