//! What an end of an open connection knows.

ghost use Rattle.std.specs.Prelude.{◌≡◌, ◌<◌};
ghost use Rattle.knx_model.specs.Connection.{IsApdu, by_number, is_before, is_with, at_time, advanced, acknowledged, new_session, has_passed, wait_end, idle_wait, numbered_data};

use crate::frame::{is_before, next_number, numbered};
use crate::wait::IDLE_WAIT_MS;
use knx_model::{ApduOctets, IndAddr, end_of, has_passed};
use std::marker::Model;

/// An open connection: its partner, the number of the partner's next service, the number of the own service that is outstanding or
/// else of the next one, and when a frame was sent or taken last.
#[derive(Drop)]
pub struct Session {
    pub partner: IndAddr,
    pub expected: u8,
    pub number: u8,
    pub last: u64,
}

impl Model for Session {
    ghost use Rattle.std.specs.Prelude.{◌<◌};
    ghost use Rattle.knx_model.specs.Connection.{Session as Known};

    ghost Value = { Known };

    ghost view = { λ s. record { partner = s.partner; expected = s.expected; number = s.number; last = s.last } };

    ghost invariant = { λ s. (s.expected < 16) × (s.number < 16) };
}

/// What the number of a partner's service means.
#[derive(Clone, Copy)]
pub enum NumberIs {
    /// That of its next service.
    Expected,
    /// That of its service before.
    Before,
    Another,
}

impl Session {
    /// A new connection.
    pub fn new(partner: IndAddr, now: u64) -> Session
        ensures { result ≡ new_session partner now }
    {
        Session {
            partner,
            expected: 0,
            number: 0,
            last: now,
        }
    }

    /// Whether frames of this sender are the partner's.
    pub fn is_partner(&self, from: IndAddr) -> bool
        ensures { result ≡ is_with self.now from }
    {
        self.partner.raw == from.raw
    }

    /// What the number of a service of the partner means.
    pub fn number_is(&self, number: u8) -> NumberIs
        requires { number < 16 }
        ensures { result ≡ by_number self.now number NumberIs.Expected NumberIs.Before NumberIs.Another }
    {
        if number == self.expected {
            NumberIs::Expected
        } else if is_before(number, self.expected) {
            NumberIs::Before
        } else {
            NumberIs::Another
        }
    }

    /// Whether a T_ACK of this number is that of the own service before.
    pub fn was_acknowledged(&self, number: u8) -> bool
        requires { number < 16 }
        ensures { result ≡ is_before number self.now.number }
    {
        is_before(number, self.number)
    }

    /// After a frame was sent or taken.
    pub fn at_time(self, now: u64) -> Session
        ensures { result ≡ at_time self now }
    {
        Session { last: now, ..self }
    }

    /// After a service of the partner was delivered.
    pub fn advanced(self, now: u64) -> Session
        ensures { result ≡ advanced self now }
    {
        Session {
            expected: next_number(self.expected),
            last: now,
            ..self
        }
    }

    /// After an own service was acknowledged.
    pub fn acknowledged(self, now: u64) -> Session
        ensures { result ≡ acknowledged self now }
    {
        Session {
            number: next_number(self.number),
            last: now,
            ..self
        }
    }

    /// The octets of the next own service.
    pub fn numbered(&self, apdu: &[u8]) -> ApduOctets
        requires { IsApdu apdu.now }
        ensures { result ≡ numbered_data self.now.number apdu.now }
    {
        numbered(self.number, apdu)
    }

    /// Whether it was idle for too long.
    pub fn is_over(&self, now: u64) -> bool
        ensures { result ≡ has_passed idle_wait self.now.last now }
    {
        has_passed(IDLE_WAIT_MS, self.last, now)
    }

    /// When it will have been idle for too long.
    pub fn end(&self) -> u64
        ensures { result ≡ wait_end idle_wait self.now.last }
    {
        end_of(IDLE_WAIT_MS, self.last)
    }
}
