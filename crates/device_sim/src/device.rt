//! The simulated device: what it is, its power, and what it runs.

ghost use Rattle.std.specs.Prelude.{◌≡◌, true, nat_lt, IfOk};
ghost use Rattle.knx_model.specs.Device.{Fits, HasCapacities, all_loaded, runs, torn, written_front};
ghost use Rattle.knx_model.specs.declared.device.FrameSupport.TheVariants.{Standard};
ghost use Rattle.knx_model.specs.DeviceState.{IsDevice, blank, loaded_with, device_with, framed, at_rest, cut, switched_on};
ghost use Rattle.knx_model.specs.DeviceConnection.{device_deadline};
ghost use Rattle.device_sim.specs.Effects.{meant};

use crate::effect::Effect;
use crate::loadable::Loadable;
use crate::non_volatile::NonVolatile;
use crate::running::index_tables;
use crate::values::Values;
use device_tables::TableIndex;
use knx_model::{FrameSupport, Image, IndAddr, Ldata, LoadableObject, NoMemory, Octets};
use std::alloc::Global;
use std::collections::VecDeque;
use std::marker::Model;
use transport_conn::DeviceConn;

/// A device of System B on a line: its individual address, which frames it takes, what it keeps without power, whether it has power,
/// and what it has only while it has: its connection, its objects' values, the frames that it has to send, and the one that it got last.
/// While it runs its index is one of its tables, so that a group telegram finds its objects.
#[derive(Drop)]
pub struct Device {
    pub(crate) address: IndAddr,
    pub(crate) frames: FrameSupport,
    pub(crate) kept: NonVolatile,
    pub(crate) power: bool,
    pub(crate) connection: DeviceConn,
    pub(crate) values: Values,
    pub(crate) unsent: VecDeque<Ldata>,
    pub(crate) last: Option<Ldata>,
    pub(crate) index: TableIndex,
}

impl Model for Device {
    ghost use Rattle.knx_model.specs.Device.{HasCapacities};
    ghost use Rattle.knx_model.specs.DeviceState.{DeviceState};
    ghost use Rattle.device_sim.specs.Indexed.{IsIndexed};

    ghost Value = { DeviceState };

    ghost view = { λ d. record { address = d.address; frames = d.frames; kept = d.kept; power = d.power; connection = d.connection; values = d.values; unsent = d.unsent.items; last = d.last } };

    ghost invariant = { λ d. HasCapacities d.kept × IsIndexed d.kept d.index };
}

impl Device {
    /// A device with power to which nothing was loaded.
    pub fn blank(alloc: Global, address: IndAddr) -> Result<Device, NoMemory>
        ensures { IfOk result (λ made. made ≡ blank address) }
    {
        let kept = NonVolatile {
            address_table: Loadable::blank(alloc, LoadableObject::AddressTable.capacity())?,
            association_table: Loadable::blank(alloc, LoadableObject::AssociationTable.capacity())?,
            group_objects: Loadable::blank(alloc, LoadableObject::GroupObjects.capacity())?,
            application: Loadable::blank(alloc, LoadableObject::Application.capacity())?,
        };
        Device::at_rest(alloc, address, kept)
    }

    /// A device with power that is loaded with an image.
    pub fn loaded(alloc: Global, address: IndAddr, image: &Image) -> Result<Device, NoMemory>
        requires { Fits image.now }
        ensures { IfOk result (λ made. made ≡ loaded_with address image.now) }
    {
        let kept = NonVolatile {
            address_table: Loadable::loaded(
                alloc,
                LoadableObject::AddressTable.capacity(),
                image.addr.as_slice(),
            )?,
            association_table: Loadable::loaded(
                alloc,
                LoadableObject::AssociationTable.capacity(),
                image.assoc.as_slice(),
            )?,
            group_objects: Loadable::loaded(
                alloc,
                LoadableObject::GroupObjects.capacity(),
                image.objs.as_slice(),
            )?,
            application: Loadable::loaded(
                alloc,
                LoadableObject::Application.capacity(),
                image.params.as_slice(),
            )?,
        };
        Device::at_rest(alloc, address, kept)
    }

    /// From now on it takes standard frames alone.
    pub fn set_standard(&mut self)
        ensures { self.new ≡ framed Standard self.old }
    {
        self.frames = FrameSupport::Standard;
    }

    /// A law of the type: what is so of each device. It does nothing.
    pub fn keeps(&self)
        ensures { IsDevice self.now }
    {
        // The proof knows the type's invariant once a field is read.
        let _ = &self.kept;
        self.values.keeps();
    }

    /// Its individual address.
    pub fn address(&self) -> IndAddr
        ensures { result ≡ self.now.address }
    {
        self.address
    }

    /// A device with power that has nothing but what it keeps without.
    fn at_rest(alloc: Global, address: IndAddr, kept: NonVolatile) -> Result<Device, NoMemory>
        requires { HasCapacities kept }
        ensures { IfOk result (λ made. made ≡ device_with address kept) }
    {
        let mut index = TableIndex::room(alloc)?;
        index_tables(&mut index, &kept, false);
        Ok(Device {
            address,
            frames: FrameSupport::Extended,
            kept,
            power: true,
            connection: DeviceConn::idle(),
            values: Values::zero(alloc),
            unsent: VecDeque::new(alloc),
            last: None,
            index,
        })
    }

    /// What it has only while it has power is lost.
    fn forget(&mut self)
        ensures { self.new ≡ at_rest self.old }
    {
        self.connection = DeviceConn::idle();
        self.values.reset();
        self.unsent.clear();
        self.last = None;
    }

    /// Power is cut while an effect is taken, after the first `k` octets that it writes.
    pub(crate) fn tear(&mut self, effect: &Effect, k: u32)
        ensures { self.new ≡ cut (record self.old { kept = torn self.old.kept (meant effect.now) (nat_lt 0 k) (written_front (meant effect.now) k) }) }
    {
        let ran = self.runs();
        self.kept.take_torn(effect, k);
        index_tables(&mut self.index, &self.kept, ran);
        self.cut();
    }

    /// Power is cut.
    pub fn cut(&mut self)
        ensures { self.new ≡ cut self.old }
    {
        self.forget();
        self.power = false;
    }

    /// Power comes back. A device that has power keeps what it has.
    pub fn on(&mut self)
        ensures { self.new ≡ switched_on self.old }
    {
        if !self.power {
            self.forget();
            self.power = true;
        }
    }

    /// The nearest time, in milliseconds, at which a wait of its connection has passed; None exactly where none runs.
    pub fn deadline(&self) -> Option<u64>
        ensures { result ≡ device_deadline self.now.connection }
    {
        self.connection.deadline()
    }

    /// The frame that it got last, which the bus may bring again; None where it got none since power came.
    pub fn last(&self) -> Option<Ldata>
        ensures { result ≡ self.now.last }
    {
        Some(self.last.as_ref()?.copied())
    }

    /// Whether it has power.
    pub fn has_power(&self) -> bool
        ensures { result ≡ self.now.power }
    {
        self.power
    }

    /// Whether it runs, that is whether all four objects are Loaded.
    pub fn runs(&self) -> bool
        ensures { result ≡ all_loaded self.now.kept }
    {
        self.kept.runs()
    }

    /// The image that it runs, and none where it doesn't run.
    pub fn image(&self, alloc: Global) -> Result<Option<Image>, NoMemory>
        ensures { IfOk result (λ image. image ≡ runs self.now.kept) }
    {
        if !self.runs() {
            return Ok(None);
        }
        Ok(Some(Image {
            addr: Octets::from_slice(alloc, self.kept.address_table.octets())?,
            assoc: Octets::from_slice(alloc, self.kept.association_table.octets())?,
            objs: Octets::from_slice(alloc, self.kept.group_objects.octets())?,
            params: Octets::from_slice(alloc, self.kept.application.octets())?,
        }))
    }
}
