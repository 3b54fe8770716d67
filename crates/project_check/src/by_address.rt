//! A value for each 16-bit address.

ghost use Rattle.std.specs.Prelude.{◌≡◌, ℕ, ◌==◌, Some, slice_get, if◌then◌else◌, IfOk};
ghost use Rattle.project_check.specs.Knowing.{Holds};

use std::alloc::{AllocError, Global};
use std::marker::Model;

/// How many addresses there are.
const ADDRESSES: usize = 65_536;

/// A value for each 16-bit address.
#[derive(Drop)]
pub struct ByAddress<T> {
    slots: Vec<T>,
}

impl<T> Model for ByAddress<T> {
    ghost use Rattle.std.specs.Prelude.{◌≡◌, List, length};

    ghost Value = { List T };

    ghost view = { λ t. t.slots.items };

    ghost invariant = { λ t. length t.slots.items ≡ 65536 };
}

impl<T: Copy> ByAddress<T> {
    /// The same value for each address.
    pub fn new(alloc: Global, value: T) -> Result<ByAddress<T>, AllocError>
        ensures { IfOk result (λ table. Holds table (λ _. value)) }
    {
        let mut slots = Vec::new(alloc);
        slots.resize(ADDRESSES, value)?;
        Ok(ByAddress { slots })
    }

    /// The value for an address.
    pub fn get(&self, address: u16) -> T
        ensures { slice_get self.now address ≡ Some result }
    {
        self.slots[address as usize]
    }

    /// Replaces the value for an address.
    pub fn set(&mut self, address: u16, value: T)
        ensures { (a : ℕ) → slice_get self.new a ≡ (if address == a then Some value else slice_get self.old a) }
    {
        self.slots[address as usize] = value;
    }
}
