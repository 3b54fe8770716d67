//! What a table of each kind states.

ghost use Rattle.std.specs.Prelude.{◌≡◌, IfOk};
ghost use Rattle.toml.specs.Data.{table};
ghost use Rattle.toml.specs.View.{view, table_view, items_view};
ghost use Rattle.catalogue.specs.Shapes.{is_key, are_keys, is_table, each, object_of, numbers_of, parameter_of, model_from, model_of};

use crate::repeats::{repeats_name, repeats_number};
use crate::stated::{FieldNumbers, StatedField, StatedModel, TableKind};
use crate::values::{integer_at, list_at, name_at, number_at, text_at};
use knx_model::{List, LoadableObject, ModelObject, NoMemory, Octets, flags_of, size_code};
use std::alloc::Global;
use toml::{Table, Value};

/// The greatest number of a group object.
const GREATEST_OBJECT: u16 = 255;

/// The most bits of a group object, of 14 octets.
const MOST_OBJECT_BITS: u16 = 112;

impl TableKind {
    /// Whether a table of this kind may have the key.
    fn has_key(self, key: &[u8]) -> bool
        ensures { result ≡ is_key self key.now }
    {
        match self {
            TableKind::Model => {
                key == b"params".as_slice()
                    || key == b"object".as_slice()
                    || key == b"parameter".as_slice()
            }
            TableKind::Object => {
                key == b"n".as_slice() || key == b"size".as_slice() || key == b"flags".as_slice()
            }
            TableKind::Parameter => {
                key == b"name".as_slice()
                    || key == b"bit".as_slice()
                    || key == b"width".as_slice()
                    || key == b"min".as_slice()
                    || key == b"max".as_slice()
                    || key == b"default".as_slice()
            }
        }
    }

    /// Whether a table has no other keys.
    fn has_keys_of(self, table: &Table) -> bool
        ensures { result ≡ are_keys self (table_view table.now) }
    {
        for (key, _value) in table {
            if !self.has_key(key.as_bytes()) {
                return false;
            }
        }
        true
    }

    /// Whether a value is a table with no other keys.
    fn is_kind_of(self, value: &Value) -> bool
        ensures { result ≡ is_table self (view value.now) }
    {
        match value {
            Value::Table(table) => self.has_keys_of(table),
            _ => false,
        }
    }
}

/// The group object that a table states.
#[tactic(auto, unfolding(crate::specs::Shapes::object_of))]
fn object_in(table: &Value) -> Option<ModelObject>
    ensures { result ≡ object_of (view table.now) }
{
    if !TableKind::Object.is_kind_of(table) {
        return None;
    }
    let n = number_at(table, "n", 1, GREATEST_OBJECT)?;
    let size = size_code(u32::from(number_at(table, "size", 1, MOST_OBJECT_BITS)?))?;
    let flags = flags_of(text_at(table, "flags")?)?;
    Some(ModelObject {
        n: n as u8,
        size,
        flags,
    })
}

/// The group objects that tables state, where each states one.
fn objects_in(alloc: Global, tables: &[Value]) -> Result<Option<List<ModelObject>>, NoMemory>
    ensures { IfOk result (λ objects. objects ≡ each object_of (items_view tables.now)) }
{
    let mut objects = List::new(alloc);
    for table in tables {
        match object_in(table) {
            Some(object) => objects.push(object)?,
            None => return Ok(None),
        }
    }
    Ok(Some(objects))
}

/// The numbers of a parameter that a table states.
#[tactic(auto, unfolding(crate::specs::Shapes::numbers_of))]
fn numbers_in(table: &Value) -> Option<FieldNumbers>
    ensures { result ≡ numbers_of (view table.now) }
{
    Some(FieldNumbers {
        bit: integer_at(table, "bit")?,
        width: integer_at(table, "width")?,
        min: integer_at(table, "min")?,
        max: integer_at(table, "max")?,
        default: integer_at(table, "default")?,
    })
}

/// The parameter that a table states.
#[tactic(auto, unfolding(crate::specs::Shapes::parameter_of))]
fn parameter_in(alloc: Global, table: &Value) -> Result<Option<StatedField>, NoMemory>
    ensures { IfOk result (λ parameter. parameter ≡ parameter_of (view table.now)) }
{
    if !TableKind::Parameter.is_kind_of(table) {
        return Ok(None);
    }
    let Some(name) = name_at(table, "name") else {
        return Ok(None);
    };
    let Some(numbers) = numbers_in(table) else {
        return Ok(None);
    };
    let name = Octets::from_slice(alloc, name.as_bytes())?;
    Ok(Some(StatedField { name, numbers }))
}

/// The parameters that tables state, where each states one.
fn parameters_in(alloc: Global, tables: &[Value]) -> Result<Option<List<StatedField>>, NoMemory>
    ensures { IfOk result (λ parameters. parameters ≡ each parameter_of (items_view tables.now)) }
{
    let mut parameters = List::new(alloc);
    for table in tables {
        match parameter_in(alloc, table)? {
            Some(parameter) => parameters.push(parameter)?,
            None => return Ok(None),
        }
    }
    Ok(Some(parameters))
}

/// The model of these parts, where none of them repeats.
fn model_from(
    alloc: Global,
    params: u16,
    objects: List<ModelObject>,
    parameters: List<StatedField>,
) -> Result<Option<StatedModel>, NoMemory>
    ensures { IfOk result (λ model. model ≡ model_from (Some params) (Some objects) (Some parameters)) }
{
    if repeats_number(alloc, objects.as_slice())? {
        return Ok(None);
    }
    if repeats_name(alloc, parameters.as_slice())? {
        return Ok(None);
    }
    Ok(Some(StatedModel {
        params,
        objects,
        parameters,
    }))
}

/// The model that a table states.
#[tactic(auto, unfolding(crate::specs::Shapes::model_of))]
pub fn model_in(alloc: Global, table: &Value) -> Result<Option<StatedModel>, NoMemory>
    ensures { IfOk result (λ model. model ≡ model_of (view table.now)) }
{
    if !TableKind::Model.is_kind_of(table) {
        return Ok(None);
    }
    let most = LoadableObject::Application.capacity();
    let Some(params) = number_at(table, "params", 0, most) else {
        return Ok(None);
    };
    let Some(objects) = list_at(table, "object") else {
        return Ok(None);
    };
    let Some(parameters) = list_at(table, "parameter") else {
        return Ok(None);
    };
    let Some(objects) = objects_in(alloc, objects)? else {
        return Ok(None);
    };
    let Some(parameters) = parameters_in(alloc, parameters)? else {
        return Ok(None);
    };
    model_from(alloc, params, objects, parameters)
}
