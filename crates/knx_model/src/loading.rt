//! The load machine of a device: its loadable objects, load states and load events (ISO/IEC 14543-3-4, management).

ghost use Rattle.std.specs.Prelude.{◌≡◌};
ghost use Rattle.knx_model.specs.Device.{object_index, segment_base, capacity};
ghost use Rattle.knx_model.specs.Loading.{state_number};

/// The property of a loadable object that takes load events, and answers its load state.
pub const LOAD_CONTROL: u8 = 5;

/// The property of a loadable object that answers the base of its segment.
pub const TABLE_REFERENCE: u8 = 7;

/// The device descriptor of type 0: mask version 07B0, System B on TP1.
pub const DEVICE_DESCRIPTOR: u16 = 0x07B0;

/// The type of a descriptor response that tells that there is no descriptor of the asked type.
pub const NO_DESCRIPTOR: u8 = 0x3F;

/// The loadable objects of a device, by their object index 1 to 4.
#[derive(Clone, Copy, Drop)]
pub enum LoadableObject {
    AddressTable,
    AssociationTable,
    GroupObjects,
    Application,
}

impl LoadableObject {
    /// Its object index.
    pub fn index(self) -> u8
        ensures { result ≡ object_index self }
    {
        match self {
            LoadableObject::AddressTable => 1,
            LoadableObject::AssociationTable => 2,
            LoadableObject::GroupObjects => 3,
            LoadableObject::Application => 4,
        }
    }

    /// The memory address of the first octet of its segment.
    pub fn base(self) -> u16
        ensures { result ≡ segment_base self }
    {
        match self {
            LoadableObject::AddressTable => 0x4000,
            LoadableObject::AssociationTable => 0x5000,
            LoadableObject::GroupObjects => 0x7000,
            LoadableObject::Application => 0x8000,
        }
    }

    /// The greatest length of its segment, in octets.
    pub fn capacity(self) -> u16
        ensures { result ≡ capacity self }
    {
        match self {
            LoadableObject::AddressTable => 0x1000,
            LoadableObject::AssociationTable => 0x2000,
            LoadableObject::GroupObjects => 0x0400,
            LoadableObject::Application => 0x2000,
        }
    }
}

/// The load state of a loadable object, by its number 0 to 3.
#[derive(Clone, Copy, Debug, Drop, PartialEq, Eq)]
pub enum LoadState {
    Unloaded,
    Loaded,
    Loading,
    Error,
}

impl LoadState {
    /// Its number, as it is answered.
    pub fn number(self) -> u8
        ensures { result ≡ state_number self }
    {
        match self {
            LoadState::Unloaded => 0,
            LoadState::Loaded => 1,
            LoadState::Loading => 2,
            LoadState::Error => 3,
        }
    }
}

/// A load event, as the ten octets of load control ask for it.
#[derive(Clone, Copy, Drop)]
pub enum LoadEvent {
    /// 0, which changes nothing.
    NoOperation,
    /// 1.
    StartLoading,
    /// 2.
    LoadCompleted,
    /// 3 with the form of an allocation: the length becomes `size` octets, each of them `fill`.
    Allocate { size: u32, fill: u8 },
    /// 4.
    Unload,
    /// 3 of another form, and every other number.
    Undefined,
}
