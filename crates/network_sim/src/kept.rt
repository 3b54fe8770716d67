//! A datagram that was sent (UDP over IPv4).
//!
//! ```text
//!                deliver                     deliver
//!  +-----------+ ------> +---------------+ ------> +----------------+
//!  | under way |         | under way,    |         | under way,     |
//!  |           |         | it came once  |         | it came twice  |
//!  +-----------+         +---------------+         +----------------+
//!        |      lose            |      lose               |  lose
//!        v                      v                         v
//!       lost                   lost                      lost
//! ```
//!
//! It isn't delivered a third time, nor once it is lost.

ghost use Rattle.std.specs.Prelude.{◌≡◌, ◌≤◌, length};
ghost use Rattle.line_model.specs.Network.{new_datagram, once_more, gone};
ghost use Rattle.network_sim.specs.Arriving.{can_come, goes_first, goes_once_more};
ghost use Rattle.network_sim.specs.Readable.{readable};
ghost use Rattle.network_sim.specs.Window.{IsDeliverable, is_waiting, came_once};

use crate::place::Reach;
use crate::readable::readable;
use knx_model::Datagram;
use std::marker::Model;

/// While so many channels are made, their numbers don't come again.
const CHANNEL_NUMBERS: u64 = 255;

/// What became of a datagram, and how often it was delivered.
#[derive(Clone, Copy, Drop)]
pub enum Fate {
    /// It isn't lost.
    UnderWay { delivered: u8 },
    /// It doesn't arrive any more.
    Lost { delivered: u8 },
}

/// A datagram that was sent: its octets, so far as it is read; the endpoint of the client that it comes from or goes to; how many channels
/// the gateway had made by then; and what became of it.
#[derive(Drop)]
pub struct Sending {
    octets: Datagram,
    endpoint: u64,
    made: u64,
    fate: Fate,
}

impl Model for Sending {
    ghost use Rattle.line_model.specs.Network.{Sent};

    ghost Value = { Sent };

    ghost use Rattle.network_sim.specs.Fates.{times, is_lost};

    ghost view = { λ s. record { octets = s.octets; endpoint = s.endpoint; delivered = times s.fate; lost = is_lost s.fate; made = s.made } };
}

impl Sending {
    /// A datagram that is sent now.
    pub(crate) fn new(octets: &[u8], endpoint: u64, made: u64) -> Sending
        ensures { result ≡ new_datagram (readable octets.now) endpoint made }
    {
        Sending {
            octets: readable(octets),
            endpoint,
            made,
            fate: Fate::UnderWay { delivered: 0 },
        }
    }

    /// Its octets. Where it has more than 300 they are those of its frame, or none where it is no frame.
    pub fn octets(&self) -> &[u8]
        ensures value { result.now ≡ self.now.octets }
        ensures fits { length result.now ≤ 300 }
    {
        self.octets.as_slice()
    }

    /// The endpoint of the client that it comes from or goes to.
    pub fn endpoint(&self) -> u64
        ensures { result ≡ self.now.endpoint }
    {
        self.endpoint
    }

    /// Whether it was neither delivered nor lost.
    pub(crate) fn is_waiting(&self) -> bool
        ensures { result ≡ is_waiting self.now }
    {
        matches!(self.fate, Fate::UnderWay { delivered: 0 })
    }

    /// Whether it was delivered once and isn't lost.
    fn came_once(&self) -> bool
        ensures { result ≡ came_once self.now }
    {
        matches!(self.fate, Fate::UnderWay { delivered: 1 })
    }

    /// Whether it is within reach, and the number of no channel has come again since it was sent.
    fn can_come(&self, reach: Reach, made: u64) -> bool
        ensures { result ≡ can_come reach made self.now }
    {
        let within = match reach {
            Reach::Every => true,
            Reach::To(endpoint) => self.endpoint == endpoint,
        };
        within && made.saturating_sub(self.made) < CHANNEL_NUMBERS
    }

    /// Whether it may be delivered for the first time.
    pub(crate) fn goes_first(&self, reach: Reach, made: u64) -> bool
        ensures { result ≡ goes_first reach made self.now }
    {
        self.is_waiting() && self.can_come(reach, made)
    }

    /// Whether it may be delivered for the second time.
    pub(crate) fn goes_once_more(&self, reach: Reach, made: u64) -> bool
        ensures { result ≡ goes_once_more reach made self.now }
    {
        self.came_once() && self.can_come(reach, made)
    }

    /// It is delivered.
    pub(crate) fn deliver(&mut self)
        requires { IsDeliverable self.old }
        ensures { self.new ≡ once_more self.old }
    {
        match self.fate {
            Fate::UnderWay { delivered } => {
                self.fate = Fate::UnderWay {
                    delivered: delivered + 1,
                }
            }
            Fate::Lost { .. } => {}
        }
    }

    /// It is lost.
    pub(crate) fn lose(&mut self)
        ensures { self.new ≡ gone self.old }
    {
        match self.fate {
            Fate::UnderWay { delivered } => self.fate = Fate::Lost { delivered },
            Fate::Lost { .. } => {}
        }
    }
}
