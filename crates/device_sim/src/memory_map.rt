//! Which loadable object an object index or a memory address names.

ghost use Rattle.std.specs.Prelude.{◌≡◌, ◌≤◌, IfSome};
ghost use Rattle.knx_model.specs.Device.{segment_base, object_of_index, object_at};

use knx_model::LoadableObject;

/// The object of an object index.
pub fn object_of_index(index: u8) -> Option<LoadableObject>
    ensures { result ≡ object_of_index index }
{
    match index {
        1 => Some(LoadableObject::AddressTable),
        2 => Some(LoadableObject::AssociationTable),
        3 => Some(LoadableObject::GroupObjects),
        4 => Some(LoadableObject::Application),
        _ => None,
    }
}

/// The object in whose memory an address lies.
pub fn object_at(address: u16) -> Option<LoadableObject>
    ensures object { result ≡ object_at address }
    ensures base { IfSome result (λ o. segment_base o ≤ address) }
{
    match address {
        0x4000..=0x4FFF => Some(LoadableObject::AddressTable),
        0x5000..=0x6FFF => Some(LoadableObject::AssociationTable),
        0x7000..=0x73FF => Some(LoadableObject::GroupObjects),
        0x8000..=0x9FFF => Some(LoadableObject::Application),
        _ => None,
    }
}
