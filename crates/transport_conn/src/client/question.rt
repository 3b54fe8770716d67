//! The service of a client that isn't acknowledged.

ghost use Rattle.std.specs.Prelude.{◌≡◌, ◌<◌};
ghost use Rattle.knx_model.specs.Connection.{most_repeats, ack_wait};
ghost use Rattle.knx_model.specs.ClientConnection.{has_answer, first_question, question_confirmed, question_answered, question_again, question_expired, question_overdue, wait_end_if};

use crate::wait::{ACK_WAIT_MS, MOST_REPEATS};
use apdu_frames::decode;
use knx_model::{Apdu, ApduOctets, ClientExpired, Tpdu, end_of, has_passed};
use std::marker::Model;

/// A service that isn't acknowledged: its octets, whether its answer is still to come, how often it was sent again, and when its
/// last sending was confirmed.
#[derive(Drop)]
pub struct Question {
    frame: ApduOctets,
    awaits: bool,
    repeats: u8,
    confirmed: Option<u64>,
}

impl Model for Question {
    ghost use Rattle.knx_model.specs.ClientConnection.{Question as Known};

    ghost Value = { Known };

    ghost view = { λ q. record { frame = q.frame; awaits = q.awaits; repeats = q.repeats; confirmed = q.confirmed } };
}

impl Question {
    /// A service that is sent for the first time.
    pub fn new(frame: ApduOctets, apdu: &[u8]) -> Question
        ensures { result ≡ first_question frame apdu.now }
    {
        Question {
            frame,
            awaits: has_answer(apdu),
            repeats: 0,
            confirmed: None,
        }
    }

    /// Whether its answer is still to come.
    pub fn awaits(&self) -> bool
        ensures { result ≡ self.now.awaits }
    {
        self.awaits
    }

    /// After a confirmation, of which the first after its last sending begins the wait for its T_ACK.
    pub fn confirmed(self, now: u64) -> Question
        ensures { result ≡ question_confirmed self now }
    {
        Question {
            confirmed: self.confirmed.or(Some(now)),
            ..self
        }
    }

    /// After its answer came.
    pub fn has_come(self) -> Question
        ensures { result ≡ question_answered self }
    {
        Question {
            awaits: false,
            ..self
        }
    }

    /// After it was sent again.
    pub fn again(self) -> Question
        requires { self.repeats < most_repeats }
        ensures { result ≡ question_again self }
    {
        Question {
            repeats: self.repeats + 1,
            confirmed: None,
            ..self
        }
    }

    /// What has become due.
    pub fn expired(&self, now: u64) -> ClientExpired
        ensures { result ≡ question_expired self.now self.now.confirmed now }
    {
        match self.confirmed {
            Some(since) if has_passed(ACK_WAIT_MS, since, now) => self.overdue(),
            _ => ClientExpired::Nothing,
        }
    }

    fn overdue(&self) -> ClientExpired
        ensures { result ≡ question_overdue self.now }
    {
        if self.repeats < MOST_REPEATS {
            ClientExpired::Repeat(self.frame.copied())
        } else {
            ClientExpired::Silent {
                ms: ACK_WAIT_MS as u32,
            }
        }
    }

    /// When the wait for its T_ACK has passed.
    pub fn deadline(&self) -> Option<u64>
        ensures { result ≡ wait_end_if ack_wait self.now.confirmed }
    {
        match self.confirmed {
            Some(since) => Some(end_of(ACK_WAIT_MS, since)),
            None => None,
        }
    }
}

/// Whether a service has an answer: each but A_Memory_Write.
#[tactic(auto, unfolding(knx_model::specs::ApduReading::service_in))]
fn has_answer(apdu: &[u8]) -> bool
    ensures { result ≡ has_answer apdu.now }
{
    !matches!(decode(apdu), Ok(Tpdu::Unnumbered(Apdu::MemoryWrite { .. })))
}
