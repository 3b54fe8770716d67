//! Whether something stands twice in a list.

ghost use Rattle.std.specs.Prelude.{◌≡◌, map, nat_eq, bytes_eq, IfOk};
ghost use Rattle.knx_model.specs.Models.{number_of};
ghost use Rattle.catalogue.specs.Shapes.{repeats, stated_name};

use crate::stated::StatedField;
use knx_model::ModelObject;
use std::alloc::{AllocError, Global};
use std::collections::BTreeSet;

/// Whether two objects have one number.
pub fn repeats_number(alloc: Global, objects: &[ModelObject]) -> Result<bool, AllocError>
    ensures { IfOk result (λ twice. twice ≡ repeats nat_eq (map number_of objects.now)) }
{
    let mut seen: BTreeSet<u8> = BTreeSet::new(alloc);
    for object in objects {
        if !seen.insert(object.n)? {
            return Ok(true);
        }
    }
    Ok(false)
}

/// Whether two parameters have one name.
pub fn repeats_name(alloc: Global, parameters: &[StatedField]) -> Result<bool, AllocError>
    ensures { IfOk result (λ twice. twice ≡ repeats bytes_eq (map stated_name parameters.now)) }
{
    let mut seen: BTreeSet<&[u8]> = BTreeSet::new(alloc);
    for parameter in parameters {
        if !seen.insert(parameter.name.as_slice())? {
            return Ok(true);
        }
    }
    Ok(false)
}
