//! What is owed to the device.

ghost use Rattle.std.specs.Prelude.{◌≡◌, [], length, drop, ◌≤◌};
ghost use Rattle.knx_model.specs.Apdu.{most_octets};
ghost use Rattle.download_core.specs.Attempt.{with_reply, first_owed};

use knx_model::ApduOctets;
use std::marker::Model;

/// The T_ACKs and T_NAKs that a client owes its device, each one octet, the oldest first. It takes no memory: beyond 64 none is kept, and
/// the device sends its frame again.
#[derive(Drop)]
pub struct Owed {
    octets: ApduOctets,
}

impl Model for Owed {
    ghost use Rattle.std.specs.Prelude.{List, ℕ};

    ghost Value = { List ℕ };

    ghost view = { λ o. o.octets };
}

impl Owed {
    /// Nothing.
    pub fn new() -> Owed
        ensures { result ≡ [] }
    {
        Owed {
            octets: ApduOctets::new(),
        }
    }

    /// After one more joined.
    pub fn with(mut self, reply: &[u8]) -> Owed
        ensures { result ≡ with_reply self reply.now }
    {
        let reply_len = reply.len();
        if reply_len <= ApduOctets::CAPACITY
            && self.octets.len() <= ApduOctets::CAPACITY - reply_len
        {
            self.octets.extend(reply);
        }
        self
    }

    /// The oldest.
    pub fn first(&self) -> Option<ApduOctets>
        ensures { result ≡ first_owed self.now }
    {
        match self.octets.as_slice() {
            [] => None,
            [first, ..] => Some(ApduOctets::from_slice(&[*first])),
        }
    }

    /// Without the oldest.
    pub fn rest(self) -> Owed
        ensures { result ≡ drop 1 self }
    {
        match self.octets.as_slice() {
            [] => Owed::new(),
            [_, rest @ ..] => Owed {
                octets: ApduOctets::from_slice(rest),
            },
        }
    }
}
