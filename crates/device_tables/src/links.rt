//! The objects that are linked to a group.

ghost use Rattle.std.specs.Prelude.{◌≡◌, ℕ, ◌&&◌, ◌||◌};
ghost use Rattle.knx_model.specs.Acts.{addresses, is_pair_of, is_object_number, is_linked_in};
ghost use Rattle.device_tables.specs.Objects.{holds};

use crate::objects::Objects;
use crate::table::{address_at, pair_at};
use knx_model::GroupAddr;

/// Takes the object of a pair into the set where the pair's place is of the group.
fn note(objects: &mut Objects, addr: &[u8], group: GroupAddr, pair: (u16, u16))
    ensures { (o : ℕ) → holds objects.new o ≡ (holds objects.old o || (is_object_number o && is_pair_of (addresses addr.now) group.raw o pair)) }
{
    let (place, object) = pair;
    if object >= 1 && object <= 255 && address_at(addr, place) == Some(group.raw) {
        objects.insert(object as u8);
    }
}

/// The objects, of the numbers 1 to 255, that some pair of the association table names by a place of the group in the address
/// table. Each pair is looked at, and neither list need ascend or be whole.
pub fn linked(addr: &[u8], assoc: &[u8], group: GroupAddr) -> Objects
    ensures { (o : ℕ) → holds result o ≡ is_linked_in addr.now assoc.now group.raw o }
{
    let mut objects = Objects::none();
    let mut at = 0;
    while let Some(pair) = pair_at(assoc, at) {
        note(&mut objects, addr, group, pair);
        at += 1;
    }
    objects
}
