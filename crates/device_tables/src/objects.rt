//! Sets of object numbers, and those that a group telegram acts on.

ghost use Rattle.std.specs.Prelude.{◌≡◌, ℕ, ◌<◌, ◌||◌, ◌==◌, false, length};
ghost use Rattle.device_tables.specs.Objects.{holds};

use std::marker::Model;

/// A set of object numbers, 1 to 255.
#[derive(Clone, Copy)]
pub struct Objects {
    held: [bool; 256],
}

impl Model for Objects {
    ghost use Rattle.std.specs.Prelude.{List, Bool};

    ghost Value = { List Bool };

    ghost view = { λ s. s.held };

    ghost inverse = { λ xs. record { held = xs } };
}

impl Objects {
    /// No object.
    pub fn none() -> Objects
        ensures { (o : ℕ) → holds result o ≡ false }
    {
        Objects { held: [false; 256] }
    }

    /// Whether the object is of the set.
    pub fn has(&self, object: u8) -> bool
        ensures { result ≡ holds self.now object }
    {
        self.held[usize::from(object)]
    }

    /// Takes an object into the set.
    pub fn insert(&mut self, object: u8)
        ensures { (o : ℕ) → holds self.new o ≡ (holds self.old o || o == object) }
    {
        self.held[usize::from(object)] = true;
    }
}

/// The objects to which a telegram's value is written, and the object whose value answers it.
#[derive(Clone, Copy)]
pub struct Acts {
    pub written: Objects,
    pub answers: Option<u8>,
}
