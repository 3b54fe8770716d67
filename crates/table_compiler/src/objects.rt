//! The objects of a device, by number: those of its model and of its `object` lines, with the flags of their last `flags` lines.

ghost use Rattle.std.specs.Prelude.{◌≡◌, ◌<◌, ◌≤◌, ◌++◌, ℕ, List, length, map, slice_index_or, IfOk};
ghost use Rattle.knx_model.specs.declared.address.IndAddr.{IndAddr};
ghost use Rattle.knx_model.specs.declared.project.Statement.{Statement as Stated};
ghost use Rattle.knx_model.specs.Meaning.{model_object, flagged, flagged_objects, object_of, objects_of, greatest};
ghost use Rattle.table_compiler.specs.Drafts.{HoldsFlags, IsDraft};

use crate::drafts::Draft;
use knx_model::{Model, ModelObject, ObjSpec};
use std::alloc::{AllocError, Global};

/// What a number without object has.
const NO_OBJECT: ObjSpec = ObjSpec { flags: 0, size: 0 };

/// The number, flags and size of an object of a model.
fn model_object(object: ModelObject) -> (u8, ObjSpec)
    ensures { result ≡ model_object object }
{
    let spec = ObjSpec {
        flags: object.flags,
        size: object.size,
    };
    (object.n, spec)
}

/// The objects of the model, and those of the device's `object` lines.
fn declared_objects(
    alloc: Global,
    model: &Model,
    lines: &[(u8, ObjSpec)],
) -> Result<Vec<(u8, ObjSpec)>, AllocError>
    ensures { IfOk result (λ objects. objects.items ≡ map model_object model.now.objects ++ lines.now) }
{
    model
        .objects
        .as_slice()
        .iter()
        .map(|object| model_object(*object))
        .chain(lines.iter().copied())
        .collect(alloc)
}

/// An object with the flags that are kept for it, where there are some.
fn flagged(last: &[Option<u8>; 256], object: (u8, ObjSpec)) -> (u8, ObjSpec)
    ensures { (device : IndAddr) (ss : List Stated) → HoldsFlags last.now device ss → result ≡ flagged device ss object }
{
    let (number, spec) = object;
    let flags = last[usize::from(number)].unwrap_or(spec.flags);
    let spec = ObjSpec {
        flags,
        size: spec.size,
    };
    (number, spec)
}

/// The objects of the device with the flags of their last `flags` lines.
fn flagged_objects(
    alloc: Global,
    model: &Model,
    draft: &Draft<'_>,
) -> Result<Vec<(u8, ObjSpec)>, AllocError>
    ensures { IfOk result (λ objects. (device : IndAddr) (ss : List Stated) → IsDraft device draft.now ss → objects.items ≡ flagged_objects model.now device ss) }
{
    let last = &draft.flags;
    declared_objects(alloc, model, draft.objects.as_slice())?
        .iter()
        .map(|object| flagged(last, *object))
        .collect(alloc)
}

/// The greatest number, or 0.
fn greatest(objects: &[(u8, ObjSpec)]) -> u8
    ensures { result ≡ greatest objects.now }
{
    objects.iter().fold(0, |most, object| most.max(object.0))
}

/// The object of each number; the first of a number counts.
fn table_of(objects: &[(u8, ObjSpec)]) -> [ObjSpec; 256]
    ensures whole { length result ≡ 256 }
    ensures each { (n : ℕ) → n < 256 → slice_index_or result n NO_OBJECT ≡ object_of objects.now n }
{
    let mut table = [NO_OBJECT; 256];
    for i in (0..objects.len()).rev() {
        let (number, spec) = objects[i];
        table[usize::from(number)] = spec;
    }
    table
}

/// The objects of the device from number 1 to the greatest.
pub fn objects_of(
    alloc: Global,
    model: &Model,
    draft: &Draft<'_>,
) -> Result<Vec<ObjSpec>, AllocError>
    ensures objects { IfOk result (λ objects. (device : IndAddr) (ss : List Stated) → IsDraft device draft.now ss → objects.items ≡ objects_of (flagged_objects model.now device ss)) }
    ensures few { IfOk result (λ objects. length objects.items ≤ 255) }
{
    let objects = flagged_objects(alloc, model, draft)?;
    let table = table_of(&objects);
    let most = usize::from(greatest(&objects));
    Vec::from_slice(alloc, &table[1..most + 1])
}
