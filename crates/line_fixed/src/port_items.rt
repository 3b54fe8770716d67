//! The record of a port.

ghost use Rattle.std.specs.Prelude.{◌≡◌, []};
ghost use Rattle.line_fixed.specs.Fixed.{with_entry};
ghost use Rattle.line_fixed.specs.PortItems.{newest_first, told};

use knx_model::{NoMemory, Octets};
use std::alloc::Global;
use std::marker::Model;

/// What was done at a port.
#[derive(Drop)]
pub enum PortItem {
    /// A datagram of a client was taken.
    Took { from: u32, octets: Octets },
    /// No datagram came in so many milliseconds.
    Quiet { ms: u32 },
    /// A datagram was given to a client.
    Gave { to: u32, octets: Octets },
}

/// What was done at a port; contracts see the newest first.
#[derive(Drop)]
pub struct PortItems {
    /// The oldest first.
    items: Vec<PortItem>,
}

impl Model for PortItems {
    ghost use Rattle.std.specs.Prelude.{List};
    ghost use Rattle.line_model.specs.PortStory.{PortItem as Told};
    ghost use Rattle.line_fixed.specs.PortItems.{newest_first};

    ghost Value = { List Told };

    ghost view = { λ s. newest_first s.items.items };
}

impl PortItems {
    /// Nothing was done. It takes no memory.
    pub fn new(alloc: Global) -> PortItems
        ensures { result ≡ [] }
    {
        PortItems {
            items: Vec::new(alloc),
        }
    }

    /// What was done, the oldest first.
    pub fn as_slice(&self) -> &[PortItem]
        ensures { newest_first result.now ≡ self.now }
    {
        self.items.as_slice()
    }

    /// Adds what is done now. At `Err` nothing has changed.
    pub fn add(&mut self, item: PortItem) -> Result<(), NoMemory>
        ensures { self.new ≡ with_entry result (told item) self.old }
    {
        self.items.push(item)?;
        Ok(())
    }
}
