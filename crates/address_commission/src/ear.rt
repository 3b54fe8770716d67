//! What was heard since the last request.

ghost use Rattle.std.specs.Prelude.{◌≡◌, List, Some, None};
ghost use Rattle.knx_model.specs.declared.address.IndAddr.{IndAddr as Address};
ghost use Rattle.address_commission.specs.Listening.{HeardSo, HearsWhat, TakesFrame};
ghost use Rattle.address_talk.specs.Rounds.{and_answer, answer_in, confirmed_by};

use address_world::Asked;
use apdu_frames::service_in;
use knx_model::{Apdu, IndAddr, Ldata, LdataCode};
use tunnel_link::What;

/// Who answered a read.
#[derive(Clone, Copy, Drop)]
pub enum Heard {
    Nobody,
    One(IndAddr),
    /// The first two.
    Several(IndAddr, IndAddr),
}

impl Heard {
    /// One more answered.
    fn and(self, source: IndAddr) -> Heard
        ensures { (answers : List Address) → HeardSo self answers → HeardSo result (and_answer answers (Some source)) }
    {
        match self {
            Heard::Nobody => Heard::One(source),
            Heard::One(first) => Heard::Several(first, source),
            Heard::Several(first, second) => Heard::Several(first, second),
        }
    }
}

/// Who answered the last read, whether the last request is confirmed, with an error or without, and when a datagram came last.
#[derive(Clone, Copy, Drop)]
pub struct Ear {
    pub heard: Heard,
    pub confirmed: Option<bool>,
    pub since: u64,
}

impl Ear {
    /// Nothing was put yet, and nothing came.
    pub fn new() -> Ear
        ensures { result ≡ record { heard = Heard.Nobody; confirmed = None; since = 0 } }
    {
        Ear {
            heard: Heard::Nobody,
            confirmed: None,
            since: 0,
        }
    }

    /// Before this is put.
    pub fn before(self, asked: Asked) -> Ear
        ensures confirmed { result.confirmed ≡ None }
        ensures since { result.since ≡ self.since }
        ensures read { asked ≡ Asked.Read → result.heard ≡ Heard.Nobody }
        ensures other { ¬ (asked ≡ Asked.Read) → result.heard ≡ self.heard }
    {
        let heard = match asked {
            Asked::Read => Heard::Nobody,
            Asked::Connect | Asked::Disconnect | Asked::Write => self.heard,
        };
        Ear {
            heard,
            confirmed: None,
            since: self.since,
        }
    }

    /// A frame came at this time.
    fn takes(self, frame: &Ldata, now: u64) -> Ear
        ensures { TakesFrame frame.now now self result }
    {
        Ear {
            heard: self.heard_with(frame),
            confirmed: confirmed_by(self.confirmed, frame),
            since: now,
        }
    }

    fn heard_with(self, frame: &Ldata) -> Heard
        ensures { (answers : List Address) → HeardSo self.heard answers → HeardSo result (and_answer answers (answer_in frame.now)) }
    {
        match answer_in(frame) {
            Some(source) => self.heard.and(source),
            None => self.heard,
        }
    }

    /// A poll brought this at this time.
    pub fn hears(self, what: &What, now: u64) -> Ear
        ensures { HearsWhat what.now now self result }
    {
        match what {
            What::Quiet => self,
            What::Dropped | What::Tunnel | What::Up { .. } => Ear { since: now, ..self },
            What::Frame(frame) => self.takes(frame, now),
        }
    }
}

/// Who responds by a frame, if so.
fn answer_in(frame: &Ldata) -> Option<IndAddr>
    ensures { result ≡ answer_in frame.now }
{
    if frame.code != LdataCode::Ind || !frame.group || frame.destination != 0 {
        return None;
    }
    match service_in(frame.tpdu.as_slice()) {
        Some(Apdu::AddressResponse) => Some(IndAddr { raw: frame.source }),
        _ => None,
    }
}

/// Whether a request is confirmed, after a frame came.
fn confirmed_by(confirmed: Option<bool>, frame: &Ldata) -> Option<bool>
    ensures { result ≡ confirmed_by confirmed frame.now }
{
    match (confirmed, frame.code) {
        (None, LdataCode::Con) => Some(frame.error),
        _ => confirmed,
    }
}
