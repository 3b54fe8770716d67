//! The tables as octets: a count of two octets, the high one first, and entries. An entry counts where it lies whole in its list and
//! within the count.

ghost use Rattle.std.specs.Prelude.{◌≡◌, ◌<◌, slice_get, IfSome};
ghost use Rattle.knx_model.specs.Acts.{numbers, addresses, pairs, object_in_table};
ghost use Rattle.knx_model.specs.Tables.{at_place};

use knx_model::ObjSpec;

/// The number of two octets at an index, in such numbers; none where its octets aren't both there.
#[tactic(auto, using(crate::proofs::Numbers::number_is, crate::proofs::Numbers::no_number))]
fn number_at(octets: &[u8], at: usize) -> Option<u16>
    requires { at < 200000 }
    ensures { result ≡ slice_get (numbers octets.now) at }
{
    if 2 * at + 1 >= octets.len() {
        return None;
    }
    Some(u16::from_be_bytes([octets[2 * at], octets[2 * at + 1]]))
}

/// The group address at a place of an address table, from 1.
pub fn address_at(addr: &[u8], place: u16) -> Option<u16>
    ensures { result ≡ at_place (addresses addr.now) place }
{
    let count = number_at(addr, 0)?;
    if place == 0 || place > count {
        return None;
    }
    number_at(addr, usize::from(place))
}

/// The pair at an index of an association table: a place in the address table, and an object number.
#[tactic(auto, using(crate::proofs::Numbers::first_pair_is, crate::proofs::Numbers::no_count, crate::proofs::Numbers::not_counted, crate::proofs::Numbers::no_object, crate::proofs::Numbers::no_place))]
pub fn pair_at(assoc: &[u8], at: usize) -> Option<(u16, u16)>
    ensures pair { result ≡ slice_get (pairs assoc.now) at }
    ensures few { IfSome result (λ _. at < 65536) }
{
    let count = number_at(assoc, 0)?;
    if at >= usize::from(count) {
        return None;
    }
    let place = number_at(assoc, 2 * at + 1)?;
    let object = number_at(assoc, 2 * at + 2)?;
    Some((place, object))
}

/// The flags and the size code of an object number, 1 to 255; none where the group objects' table hasn't both octets of it.
#[tactic(auto, using(crate::proofs::ObjectTable::object_is, crate::proofs::ObjectTable::no_count, crate::proofs::ObjectTable::not_counted, crate::proofs::ObjectTable::not_whole))]
pub fn object_in_table(objs: &[u8], object: u8) -> Option<ObjSpec>
    ensures { result ≡ object_in_table objs.now object }
{
    let count = number_at(objs, 0)?;
    let at = 2 * usize::from(object);
    if object == 0 || u16::from(object) > count || at + 1 >= objs.len() {
        return None;
    }
    Some(ObjSpec {
        flags: objs[at],
        size: objs[at + 1],
    })
}
