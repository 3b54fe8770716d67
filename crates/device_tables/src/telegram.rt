//! What a group telegram acts on.

ghost use Rattle.std.specs.Prelude.{◌≡◌, ℕ, find};
ghost use Rattle.knx_model.specs.Acts.{has_flag, accepts, can_answer, writes, may_answer, lowest_answering, object_numbers, object_in_table, is_written, answerer};
ghost use Rattle.knx_model.specs.declared.config.Image.{Image};
ghost use Rattle.device_tables.specs.Objects.{holds};
ghost use Rattle.device_tables.specs.Index.{IsIndexOf};

use crate::index::TableIndex;
use crate::links::linked;
use crate::objects::{Acts, Objects};
use crate::table::object_in_table;
use crate::value::takes_form;
use knx_model::{COMMUNICATE, GroupAddr, GroupService, Image, ObjSpec, READ, UPDATE, WRITE};
use std::marker::Brand;
use std::sync::ledger::Blank;

fn has_flag(object: ObjSpec, flag: u8) -> bool
    ensures { result ≡ has_flag object flag }
{
    object.flags & flag != 0
}

/// Whether the service's value is written to the object.
fn accepts(object: ObjSpec, service: &GroupService) -> bool
    ensures { result ≡ accepts service.now object }
{
    match service {
        GroupService::Read => false,
        GroupService::Write(value) => {
            has_flag(object, COMMUNICATE)
                && has_flag(object, WRITE)
                && takes_form(object.size, value)
        }
        GroupService::Response(value) => {
            has_flag(object, COMMUNICATE)
                && has_flag(object, UPDATE)
                && takes_form(object.size, value)
        }
    }
}

/// Whether the object's value may answer a read.
fn can_answer(object: ObjSpec) -> bool
    ensures { result ≡ can_answer object }
{
    has_flag(object, COMMUNICATE) && has_flag(object, READ)
}

/// Whether the service's value is written to the object of a number.
fn is_written(linked: &Objects, objs: &[u8], service: &GroupService, object: u8) -> bool
    ensures { result ≡ writes (holds linked.now) (object_in_table objs.now) service.now object }
{
    linked.has(object) && object_in_table(objs, object).is_some_and(|spec| accepts(spec, service))
}

/// Whether the object of a number is linked and can answer.
fn is_answering(linked: &Objects, objs: &[u8], object: u8) -> bool
    ensures { result ≡ may_answer (holds linked.now) (object_in_table objs.now) object }
{
    linked.has(object) && object_in_table(objs, object).is_some_and(|spec| can_answer(spec))
}

/// The linked objects to which the service's value is written.
#[tactic(auto, using(crate::proofs::Counting::with_one, crate::proofs::Counting::without_one))]
fn written(linked: &Objects, objs: &[u8], service: &GroupService) -> Objects
    ensures { (o : ℕ) → holds result o ≡ writes (holds linked.now) (object_in_table objs.now) service.now o }
{
    let mut written = Objects::none();
    for object in 1..=u8::MAX {
        if is_written(linked, objs, service, object) {
            written.insert(object);
        }
    }
    written
}

/// The lowest linked object that can answer.
fn lowest_answering(linked: &Objects, objs: &[u8]) -> Option<u8>
    ensures { result ≡ find (may_answer (holds linked.now) (object_in_table objs.now)) object_numbers }
{
    for object in 1..=u8::MAX {
        if is_answering(linked, objs, object) {
            return Some(object);
        }
    }
    None
}

/// What a telegram acts on where these objects are linked to its group.
fn acts_of(linked: &Objects, objs: &[u8], service: &GroupService) -> Acts
    ensures written { (o : ℕ) → holds result.written o ≡ writes (holds linked.now) (object_in_table objs.now) service.now o }
    ensures answers { result.answers ≡ lowest_answering (holds linked.now) (object_in_table objs.now) service.now }
{
    Acts {
        written: written(linked, objs, service),
        answers: match service {
            GroupService::Read => lowest_answering(linked, objs),
            _ => None,
        },
    }
}

/// What a device that runs the image does at a group telegram: a write goes to each linked object with communicate and write that
/// takes the value's form, a response to those with communicate and update; the lowest linked object with communicate and read
/// answers a read.
pub fn acts(image: &Image, group: GroupAddr, service: &GroupService) -> Acts
    ensures written { (o : ℕ) → holds result.written o ≡ is_written image.now group.raw service.now o }
    ensures answers { result.answers ≡ answerer image.now group.raw service.now }
{
    let linked = linked(image.addr.as_slice(), image.assoc.as_slice(), group);
    acts_of(&linked, image.objs.as_slice(), service)
}

impl TableIndex {
    /// What a device that runs an image with the tables of this index, and with these group objects, does at a group telegram: the
    /// same as `acts` of the image.
    pub fn acts(&self, objs: &[u8], group: GroupAddr, service: &GroupService) -> Acts
        ensures written { (image : Image) → IsIndexOf image.addr image.assoc self.now → image.objs ≡ objs.now → (o : ℕ) → holds result.written o ≡ is_written image group.raw service.now o }
        ensures answers { (image : Image) → IsIndexOf image.addr image.assoc self.now → image.objs ≡ objs.now → result.answers ≡ answerer image group.raw service.now }
    {
        let linked = self.linked_uncounted::<Brand>(group, Blank::new(1));
        acts_of(&linked, objs, service)
    }
}
