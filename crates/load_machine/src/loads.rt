//! The load machines of a device's four loadable objects.

ghost use Rattle.std.specs.Prelude.{◌≡◌};
ghost use Rattle.knx_model.specs.Loading.{Loadable, machine_of, capacity_of, load_step, load_event};
ghost use Rattle.knx_model.specs.Device.{segment_base, capacity};
ghost use Rattle.load_machine.specs.Machines.{machine, with_machine, all_unloaded};

use crate::machine::LoadMachine;
use crate::octets::load_event;
use knx_model::{LoadEvent, LoadState, LoadableObject};
use std::marker::Model;

/// The load state and the segment of each loadable object.
#[derive(Drop)]
pub struct Loads {
    address_table: LoadMachine,
    association_table: LoadMachine,
    group_objects: LoadMachine,
    application: LoadMachine,
}

impl Model for Loads {
    ghost use Rattle.load_machine.specs.Machines.{Machines};

    ghost Value = { Machines };

    ghost view = { λ l. record { address_table = l.address_table; association_table = l.association_table; group_objects = l.group_objects; application = l.application } };
}

/// Where the octets of a loadable object lie: the address of the first and their number.
#[derive(Clone, Copy)]
pub struct Segment {
    pub base: u16,
    pub len: u16,
}

impl Loads {
    /// Nothing was loaded.
    pub fn blank() -> Loads
        ensures { result ≡ all_unloaded }
    {
        Loads {
            address_table: LoadMachine::unloaded(),
            association_table: LoadMachine::unloaded(),
            group_objects: LoadMachine::unloaded(),
            application: LoadMachine::unloaded(),
        }
    }

    fn machine(&self, object: LoadableObject) -> &LoadMachine
        ensures { result.now ≡ machine self.now object }
    {
        match object {
            LoadableObject::AddressTable => &self.address_table,
            LoadableObject::AssociationTable => &self.association_table,
            LoadableObject::GroupObjects => &self.group_objects,
            LoadableObject::Application => &self.application,
        }
    }

    fn load(&mut self, object: LoadableObject, event: LoadEvent)
        ensures { (p : Loadable) → machine_of p ≡ machine self.old object → capacity_of p ≡ capacity object → self.new ≡ with_machine self.old object (machine_of (load_step p event)) }
    {
        let capacity = object.capacity();
        match object {
            LoadableObject::AddressTable => self.address_table.load(event, capacity),
            LoadableObject::AssociationTable => self.association_table.load(event, capacity),
            LoadableObject::GroupObjects => self.group_objects.load(event, capacity),
            LoadableObject::Application => self.application.load(event, capacity),
        }
    }

    /// The object takes the load event that the ten octets of a write of load control ask for. Which octets lie in the segment
    /// makes no difference.
    pub fn event(&mut self, object: LoadableObject, octets: &[u8; 10])
        ensures { (p : Loadable) → machine_of p ≡ machine self.old object → capacity_of p ≡ capacity object → self.new ≡ with_machine self.old object (machine_of (load_step p (load_event octets.now))) }
    {
        self.load(object, load_event(octets.as_slice()));
    }

    /// The load state of an object.
    pub fn state(&self, object: LoadableObject) -> LoadState
        ensures { result ≡ (machine self.now object).state }
    {
        self.machine(object).state()
    }

    /// The segment of an object.
    pub fn segment(&self, object: LoadableObject) -> Segment
        ensures base { result.base ≡ segment_base object }
        ensures len { result.len ≡ (machine self.now object).len }
    {
        Segment {
            base: object.base(),
            len: self.machine(object).len(),
        }
    }
}
