//! What an attempt that runs sends.

ghost use Rattle.std.specs.Prelude.{◌≡◌, ◌<◌, ◌≤◌, ℕ, true};
ghost use Rattle.knx_model.specs.ClientConnection.{awaits_nothing, client_expired, client_sent};
ghost use Rattle.download_core.specs.declared.flight.Flight.TheVariants.{Nothing};
ghost use Rattle.knx_model.specs.Connection.{IsApdu, IsNumber};
ghost use Rattle.knx_model.specs.Plans.{Plan};
ghost use Rattle.download_core.specs.JobPlans.{job_left};
ghost use Rattle.download_core.specs.Steps.{attempt_did, paid_did, free_did, standing_did, due_did, sends, attempt_sent, paid_sent, free_sent, standing_sent, due_sent, replied, asked};
ghost use Rattle.download_core.specs.Keeps.{phase_of, attempt_of, standing_of, KeepsRun, KeepsPhase, IsAt, KeepsNumber};

use crate::did::Did;
use crate::flight::Flight;
use crate::job_plan::JobPlan;
use crate::outcome::Outcome;
use crate::phase::Phase;
use crate::position::Position;
use crate::question::{Question, next_question};
use crate::run::Run;
use knx_model::{ClientExpired, Expect, Sign};
use transport_conn::{disconnect, next_number, numbered};

impl Run {
    /// What is to be done next.
    pub fn did(&self, plan: &JobPlan, now: u64) -> Did
        requires { KeepsRun (job_left plan.now) self.now }
        ensures { result ≡ attempt_did (attempt_of (job_left plan.now) self.now) self.now.flight now }
    {
        if self.flight != Flight::Nothing {
            return Did::Wait;
        }
        match self.conn.would_expire(now) {
            ClientExpired::Silent { .. } => Did::Send(disconnect()),
            over => self.paid_did(plan, over),
        }
    }

    /// What is owed to the device, and else what the connection lets do.
    fn paid_did(&self, plan: &JobPlan, over: ClientExpired) -> Did
        requires { KeepsRun (job_left plan.now) self.now }
        ensures { result ≡ paid_did (attempt_of (job_left plan.now) self.now) self.now.owed over }
    {
        match self.owed.first() {
            Some(reply) => Did::Send(reply),
            None if self.conn.awaits_nothing() => self.free_did(plan),
            None => due_did(over),
        }
    }

    /// T_Disconnect where an answer was wrong or all operations are over, and else the next one.
    fn free_did(&self, plan: &JobPlan) -> Did
        requires keeps { KeepsRun (job_left plan.now) self.now }
        requires up { awaits_nothing self.now.conn ≡ true }
        ensures { result ≡ free_did (attempt_of (job_left plan.now) self.now) self.now.wrong }
    {
        match &self.wrong {
            Some(_) => Did::Send(disconnect()),
            None => self.standing_did(plan),
        }
    }

    #[tactic(auto, using(crate::proofs::Numbers::sends_number, crate::proofs::Sendable::question_sendable))]
    fn standing_did(&self, plan: &JobPlan) -> Did
        requires keeps { KeepsRun (job_left plan.now) self.now }
        requires up { awaits_nothing self.now.conn ≡ true }
        ensures { result ≡ standing_did self.now.conn (standing_of (job_left plan.now) self.now.position) }
    {
        match &self.position {
            Position::Next(place) => match next_question(plan, *place) {
                None => Did::Send(disconnect()),
                Some(question) => Did::Send(numbered(self.number, question.apdu.as_slice())),
            },
            Position::AnswerOf(_) => Did::Wait,
        }
    }

    /// After what was to be sent was put.
    pub fn sent(self, plan: &JobPlan, now: u64) -> Phase
        requires { KeepsRun (job_left plan.now) self }
        ensures next { phase_of (job_left plan.now) result ≡ attempt_sent (attempt_of (job_left plan.now) self) now }
        ensures keeps { KeepsPhase (job_left plan.now) result }
    {
        match self.conn.would_expire(now) {
            ClientExpired::Silent { ms } => Phase::Leaving(Outcome::Failed(Sign::Silent { ms })),
            over => self.paid_sent(plan, over, now),
        }
    }

    fn paid_sent(self, plan: &JobPlan, over: ClientExpired, now: u64) -> Phase
        requires due { over ≡ client_expired self.conn now }
        requires keeps { KeepsRun (job_left plan.now) self }
        ensures next { phase_of (job_left plan.now) result ≡ paid_sent (attempt_of (job_left plan.now) self) self.owed over now }
        ensures keeps { KeepsPhase (job_left plan.now) result }
    {
        match self.owed.first() {
            Some(_) => Phase::Running(self.replied(now)),
            None if self.conn.awaits_nothing() => self.free_sent(plan, now),
            None => Phase::Running(self.due_sent(&over, now)),
        }
    }

    /// After the oldest T_ACK or T_NAK that was owed was put.
    #[tactic(auto, using(crate::proofs::Numbers::stayed_number))]
    fn replied(mut self, now: u64) -> Run
        ensures next { (left : ℕ → Plan) → attempt_of left result ≡ replied (attempt_of left self) now }
        ensures keeps { (left : ℕ → Plan) → KeepsRun left self → KeepsRun left result }
    {
        self.conn.replied(now);
        let owed = self.owed.rest();
        Run {
            owed,
            flight: Flight::Reply,
            ..self
        }
    }

    fn free_sent(self, plan: &JobPlan, now: u64) -> Phase
        requires keeps { KeepsRun (job_left plan.now) self }
        requires up { awaits_nothing self.conn ≡ true }
        ensures next { phase_of (job_left plan.now) result ≡ free_sent (attempt_of (job_left plan.now) self) self.wrong now }
        ensures keeps { KeepsPhase (job_left plan.now) result }
    {
        match self.wrong {
            Some(wrong) => Phase::Leaving(Outcome::Refused(wrong)),
            None => self.standing_sent(plan, now),
        }
    }

    #[tactic(auto, using(crate::proofs::Sendable::question_sendable))]
    fn standing_sent(self, plan: &JobPlan, now: u64) -> Phase
        requires keeps { KeepsRun (job_left plan.now) self }
        requires up { awaits_nothing self.conn ≡ true }
        ensures next { phase_of (job_left plan.now) result ≡ standing_sent (attempt_of (job_left plan.now) self) (standing_of (job_left plan.now) self.position) now }
        ensures keeps { KeepsPhase (job_left plan.now) result }
    {
        match &self.position {
            Position::Next(place) => match next_question(plan, *place) {
                None => Phase::Leaving(Outcome::Done),
                Some(question) => Phase::Running(self.asked(question, now)),
            },
            Position::AnswerOf(_) => Phase::Running(self),
        }
    }

    /// After the outstanding operation was put again, where it was due.
    #[tactic(auto, using(crate::proofs::Numbers::repeated_number))]
    fn due_sent(mut self, over: &ClientExpired, now: u64) -> Run
        requires { over.now ≡ client_expired self.conn now }
        ensures next { (left : ℕ → Plan) → attempt_of left result ≡ due_sent (attempt_of left self) over.now now }
        ensures keeps { (left : ℕ → Plan) → KeepsRun left self → KeepsRun left result }
    {
        match over {
            ClientExpired::Repeat(_) => {
                self.conn.expire(now);
                Run {
                    flight: Flight::Frame,
                    ..self
                }
            }
            ClientExpired::Nothing | ClientExpired::Silent { .. } => self,
        }
    }

    /// After an operation was put for the first time.
    #[tactic(auto, using(crate::proofs::Numbers::asked_number, crate::proofs::Numbers::one_back))]
    fn asked(mut self, question: Question, now: u64) -> Run
        requires number { IsNumber self.number }
        requires sendable { IsApdu question.apdu }
        requires place { question.place < 0xFFFFFFFF }
        requires sent { self.sent ≤ question.place }
        ensures next { (left : ℕ → Plan) → IsAt left question → attempt_of left result ≡ asked (attempt_of left self) (left question.place) question.apdu now }
        ensures keeps { (left : ℕ → Plan) → IsAt left question → awaits_nothing self.conn ≡ true → KeepsRun left self → KeepsRun left result }
    {
        let _ = self.conn.send(question.apdu.as_slice(), now);
        let position = match question.expect {
            Expect::AckOnly => Position::Next(question.place + 1),
            Expect::Is(_) | Expect::Note => Position::AnswerOf(question),
        };
        Run {
            number: next_number(self.number),
            position,
            sent: self.sent + 1,
            flight: Flight::Frame,
            ..self
        }
    }
}

/// The outstanding operation again, where it is due.
fn due_did(over: ClientExpired) -> Did
    ensures { result ≡ due_did over }
{
    match over {
        ClientExpired::Repeat(frame) => Did::Send(frame),
        ClientExpired::Nothing | ClientExpired::Silent { .. } => Did::Wait,
    }
}
