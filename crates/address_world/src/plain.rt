//! A link that tells nothing of the world behind it.

ghost use Rattle.std.specs.Prelude.{◌≡◌};

use crate::link::AddressLink;
use line_model::{Link, LinkFault, Polled};

/// Passes every call on to its link, and tells, as a link, what that tells; of the world behind it it tells nothing.
#[derive(Drop)]
pub struct Plain<L: Link> {
    pub link: L,
}

impl<L: Link> Plain<L> {
    pub fn new(link: L) -> Plain<L>
        ensures { result.link ≡ link }
    {
        Plain { link }
    }

    /// Its link.
    pub fn back(self) -> L
        ensures { result ≡ self.link }
    {
        let Plain { link } = self;
        link
    }
}

impl<L: Link> Link for Plain<L> {
    ghost story = { λ p. L.story p.link };

    ghost script = { λ p. L.script p.link };

    ghost clock = { λ p. L.clock p.link };

    ghost place = { λ p. L.place p.link };

    ghost faults = { λ p. L.faults p.link };

    fn send(&mut self, octets: &[u8]) -> Result<(), LinkFault> {
        self.link.send(octets)
    }

    fn renew(&mut self) -> Result<(), LinkFault> {
        self.link.renew()
    }

    fn poll(&mut self, into: &mut [u8; 512], wait_ms: u32) -> Result<Polled, LinkFault> {
        self.link.poll(into, wait_ms)
    }

    fn now(&self) -> u64 {
        self.link.now()
    }

    fn at(&self) -> u64 {
        self.link.at()
    }
}

impl<L: Link> AddressLink for Plain<L> {
    ghost use Rattle.address_world.specs.AddressStory.{Untold};

    ghost told = { λ _. Untold };

    fn tells(&self) {}
}
