//! Octets in buffers of fixed size, which take no memory.

ghost use Rattle.std.specs.Prelude.{◌≡◌, ◌+◌, ◌<◌, ◌≤◌, [], ◌∷◌, ◌++◌, length, IsTrue, ◌↔◌};
ghost use Rattle.knx_model.specs.Apdu.{most_octets, most_value_octets};

use arrayvec::ArrayVec;
use std::marker::Model;

/// A TPDU, or an APDU with its transport bits 0: at most 64 octets.
#[derive(Debug, Drop, PartialEq, Eq)]
pub struct ApduOctets {
    octets: ArrayVec<u8, { ApduOctets::CAPACITY }>,
}

impl Model for ApduOctets {
    ghost use Rattle.std.specs.Prelude.{List, ℕ, ◌≤◌, length};

    ghost Value = { List ℕ };

    ghost view = { λ a. a.octets.items };

    ghost inverse = { λ xs. record { octets = record { items = xs } } };
}

impl ApduOctets {
    /// The most octets.
    pub const CAPACITY: usize = 64;

    /// No octets.
    pub fn new() -> Self
        ensures { result ≡ [] }
    {
        ApduOctets {
            octets: ArrayVec::new(),
        }
    }

    /// The number of octets.
    pub fn len(&self) -> usize
        ensures value { result ≡ length self.now }
        ensures fits { result ≤ most_octets }
    {
        self.octets.len()
    }

    /// Whether there are no octets.
    pub fn is_empty(&self) -> bool
        ensures { IsTrue result ↔ (length self.now ≡ 0) }
    {
        self.octets.is_empty()
    }

    /// The octets.
    pub fn as_slice(&self) -> &[u8]
        ensures value { result.now ≡ self.now }
        ensures fits { length self.now ≤ most_octets }
    {
        self.octets.as_slice()
    }

    /// Appends an octet.
    pub fn push(&mut self, octet: u8)
        requires { length self.old < most_octets }
        ensures { self.new ≡ self.old ++ octet ∷ [] }
    {
        self.octets.push(octet);
    }

    /// Appends octets.
    pub fn extend(&mut self, octets: &[u8])
        requires { length self.old + length octets.now ≤ most_octets }
        ensures { self.new ≡ self.old ++ octets.now }
    {
        let _ = self.octets.try_extend_from_slice(octets);
    }

    /// The same octets again. It takes no memory.
    pub fn copied(&self) -> Self
        ensures { result ≡ self.now }
    {
        ApduOctets::from_slice(self.octets.as_slice())
    }

    /// These octets.
    pub fn from_slice(octets: &[u8]) -> Self
        requires { length octets.now ≤ most_octets }
        ensures { result ≡ octets.now }
    {
        let mut all = ApduOctets::new();
        all.extend(octets);
        all
    }
}

/// The octets of a group value that does not fit into six bits.
#[derive(Debug, Drop, PartialEq, Eq)]
pub struct LongValue {
    octets: ArrayVec<u8, { LongValue::CAPACITY }>,
}

impl Model for LongValue {
    ghost use Rattle.std.specs.Prelude.{List, ℕ};

    ghost Value = { List ℕ };

    ghost view = { λ a. a.octets.items };

    ghost inverse = { λ xs. record { octets = record { items = xs } } };
}

impl LongValue {
    /// The most octets.
    pub const CAPACITY: usize = 14;

    /// The octets.
    pub fn as_slice(&self) -> &[u8]
        ensures value { result.now ≡ self.now }
        ensures fits { length self.now ≤ most_value_octets }
    {
        self.octets.as_slice()
    }

    /// These octets.
    pub fn from_slice(octets: &[u8]) -> Self
        requires { length octets.now ≤ most_value_octets }
        ensures { result ≡ octets.now }
    {
        let mut all = ArrayVec::new();
        let _ = all.try_extend_from_slice(octets);
        LongValue { octets: all }
    }

    /// The same octets again. It takes no memory.
    pub fn copied(&self) -> Self
        ensures { result ≡ self.now }
    {
        LongValue::from_slice(self.octets.as_slice())
    }
}

/// The octets of one datagram: at most 300.
#[derive(Debug, Drop, PartialEq, Eq)]
pub struct Datagram {
    octets: ArrayVec<u8, { Datagram::CAPACITY }>,
}

impl Model for Datagram {
    ghost use Rattle.std.specs.Prelude.{List, ℕ};

    ghost Value = { List ℕ };

    ghost view = { λ a. a.octets.items };

    ghost inverse = { λ xs. record { octets = record { items = xs } } };
}

impl Datagram {
    /// The most octets.
    pub const CAPACITY: usize = 300;

    /// No octets.
    pub fn new() -> Self
        ensures { result ≡ [] }
    {
        Datagram {
            octets: ArrayVec::new(),
        }
    }

    /// The number of octets.
    pub fn len(&self) -> usize
        ensures value { result ≡ length self.now }
        ensures fits { result ≤ 300 }
    {
        self.octets.len()
    }

    /// Whether there are no octets.
    pub fn is_empty(&self) -> bool
        ensures { IsTrue result ↔ (length self.now ≡ 0) }
    {
        self.octets.is_empty()
    }

    /// The octets.
    pub fn as_slice(&self) -> &[u8]
        ensures value { result.now ≡ self.now }
        ensures fits { length self.now ≤ 300 }
    {
        self.octets.as_slice()
    }

    /// Appends octets.
    pub fn extend(&mut self, octets: &[u8])
        requires { length self.old + length octets.now ≤ 300 }
        ensures { self.new ≡ self.old ++ octets.now }
    {
        let _ = self.octets.try_extend_from_slice(octets);
    }

    /// The same octets again. It takes no memory.
    pub fn copied(&self) -> Self
        ensures { result ≡ self.now }
    {
        Datagram::from_slice(self.octets.as_slice())
    }

    /// These octets.
    pub fn from_slice(octets: &[u8]) -> Self
        requires { length octets.now ≤ 300 }
        ensures { result ≡ octets.now }
    {
        let mut all = Datagram::new();
        all.extend(octets);
        all
    }
}
