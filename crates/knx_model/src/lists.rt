//! Lists that contracts see as lists.

ghost use Rattle.std.specs.Prelude.{◌≡◌, ℕ, List as Seq, [], ◌∷◌, ◌++◌, length, take, OnOk, OnErr, IfOk, IsTrue, ◌↔◌};
ghost use Rattle.knx_model.specs.Outside.{Appends};

use crate::no_memory::NoMemory;
use std::alloc::Global;
use std::marker::Model;

/// The first `most` octets, or all where there are fewer.
pub fn front(octets: &[u8], most: usize) -> &[u8]
    ensures { result.now ≡ take most octets.now }
{
    if octets.len() <= most {
        octets
    } else {
        &octets[..most]
    }
}

/// Octets of any number, on the heap.
#[derive(Drop)]
pub struct Octets {
    octets: Vec<u8>,
}

impl Model for Octets {
    ghost use Rattle.std.specs.Prelude.{List as Seq, ℕ};

    ghost Value = { Seq ℕ };

    ghost view = { λ s. s.octets.items };
}

impl Octets {
    /// No octets. It takes no memory.
    pub fn new(alloc: Global) -> Octets
        ensures { result ≡ [] }
    {
        Octets {
            octets: Vec::new(alloc),
        }
    }

    /// The same octets as a slice's.
    pub fn from_slice(alloc: Global, octets: &[u8]) -> Result<Octets, NoMemory>
        ensures { IfOk result (λ made. made ≡ octets.now) }
    {
        let octets = Vec::from_slice(alloc, octets)?;
        Ok(Octets { octets })
    }

    /// The octets of a `Vec`. It takes no memory.
    pub fn from_vec(octets: Vec<u8>) -> Octets
        ensures { result ≡ octets.items }
    {
        Octets { octets }
    }

    /// The `Vec` that holds the octets. It takes no memory.
    pub fn into_vec(self) -> Vec<u8>
        ensures { result.items ≡ self }
    {
        let Octets { octets } = self;
        octets
    }

    /// The octets.
    pub fn as_slice(&self) -> &[u8]
        ensures { result.now ≡ self.now }
    {
        self.octets.as_slice()
    }

    /// The number of octets.
    pub fn len(&self) -> usize
        ensures { result ≡ length self.now }
    {
        self.octets.len()
    }

    /// Whether there are no octets.
    pub fn is_empty(&self) -> bool
        ensures { IsTrue result ↔ (length self.now ≡ 0) }
    {
        self.octets.is_empty()
    }

    /// Appends an octet. At `Err` nothing has changed.
    pub fn push(&mut self, octet: u8) -> Result<(), NoMemory>
        ensures ok { OnOk result (self.new ≡ self.old ++ octet ∷ []) }
        ensures err { OnErr result (self.new ≡ self.old) }
    {
        self.octets.push(octet)?;
        Ok(())
    }

    /// Appends octets. At `Err` nothing has changed.
    pub fn append(&mut self, octets: &[u8]) -> Result<(), NoMemory>
        ensures ok { OnOk result (self.new ≡ self.old ++ octets.now) }
        ensures err { OnErr result (self.new ≡ self.old) }
    {
        self.octets.extend_from_slice(octets)?;
        Ok(())
    }

    /// Appends an octet, and octets behind it. At `Err` nothing has changed.
    pub fn append_behind(&mut self, octet: u8, octets: &[u8]) -> Result<(), NoMemory>
        ensures { Appends (octet ∷ octets.now) self.old self.new result }
    {
        let start = self.octets.len();
        self.octets.push(octet)?;
        match self.octets.extend_from_slice(octets) {
            Ok(()) => Ok(()),
            Err(refused) => {
                self.octets.truncate(start);
                Err(NoMemory::from(refused))
            }
        }
    }

    /// Leaves the first `most` octets, or all where there are fewer.
    pub fn truncate(&mut self, most: usize)
        ensures { self.new ≡ take most self.old }
    {
        self.octets.truncate(most);
    }
}

/// A list on the heap.
#[derive(Drop)]
pub struct List<T> {
    items: Vec<T>,
}

impl<T> Model for List<T> {
    ghost use Rattle.std.specs.Prelude.{List as Seq};

    ghost Value = { Seq T };

    ghost view = { λ s. s.items.items };
}

impl<T> List<T> {
    /// An empty list. It takes no memory.
    pub fn new(alloc: Global) -> List<T>
        ensures { result ≡ [] }
    {
        List {
            items: Vec::new(alloc),
        }
    }

    /// The items of a `Vec`. It takes no memory.
    pub fn from_vec(items: Vec<T>) -> List<T>
        ensures { result ≡ items.items }
    {
        List { items }
    }

    /// The `Vec` that holds the items. It takes no memory.
    pub fn into_vec(self) -> Vec<T>
        ensures { result.items ≡ self }
    {
        let List { items } = self;
        items
    }

    /// The items.
    pub fn as_slice(&self) -> &[T]
        ensures { result.now ≡ self.now }
    {
        self.items.as_slice()
    }

    /// The number of items.
    pub fn len(&self) -> usize
        ensures { result ≡ length self.now }
    {
        self.items.len()
    }

    /// Whether there are no items.
    pub fn is_empty(&self) -> bool
        ensures { IsTrue result ↔ (length self.now ≡ 0) }
    {
        self.items.is_empty()
    }
}

impl<T: Drop> List<T> {
    /// Appends an item. At `Err` nothing has changed.
    pub fn push(&mut self, item: T) -> Result<(), NoMemory>
        ensures ok { OnOk result (self.new ≡ self.old ++ item ∷ []) }
        ensures err { OnErr result (self.new ≡ self.old) }
    {
        self.items.push(item)?;
        Ok(())
    }
}
