//! Models, by what lines ask of them.

ghost use Rattle.std.specs.Prelude.{◌≡◌, ◌<◌, ℕ, List, None, length, slice_index_or, IfOk, OnOk, bytes_eq};
ghost use Rattle.std.specs.Option.{option_map, option_or};
ghost use Rattle.std.specs.HashMap.{get_by};
ghost use Rattle.knx_model.specs.declared.catalogue.model.Model.{Model as DeviceModel};
ghost use Rattle.knx_model.specs.Models.{inline, model_named, object_in, field_in};
ghost use Rattle.knx_model.specs.Rules.{size_in_model};
ghost use Rattle.project_check.specs.Keys.{range_of};
ghost use Rattle.project_check.specs.Knowing.{code_of, code_at, range_at, Indexes, IndexesNamed};

use knx_model::{Catalogue, INLINE, Model, ModelField, ModelObject};
use std::alloc::{AllocError, Global};
use std::collections::HashMap;

/// The least and the greatest value of a parameter.
#[derive(Clone, Copy)]
pub struct Range {
    pub min: u32,
    pub max: u32,
}

/// A model's size codes by object number, and its ranges by parameter name.
#[derive(Drop)]
pub struct ModelIndex<'a> {
    pub sizes: [Option<u8>; 256],
    pub ranges: HashMap<&'a [u8], Range>,
}

/// Adds the size code of an object, where it is the first of its number.
fn add_size(sizes: &mut [Option<u8>; 256], object: &ModelObject)
    ensures whole { length sizes.new ≡ 256 }
    ensures each { (n : ℕ) → n < 256 → slice_index_or sizes.new n None ≡ option_or (slice_index_or sizes.old n None) (code_at n object.now) }
{
    let number = usize::from(object.n);
    if sizes[number].is_none() {
        sizes[number] = Some(object.size);
    }
}

/// The size codes of objects, by their numbers.
fn sizes_of(objects: &[ModelObject]) -> [Option<u8>; 256]
    ensures whole { length result ≡ 256 }
    ensures each { (n : ℕ) → n < 256 → slice_index_or result n None ≡ option_map code_of (object_in objects.now n) }
{
    let mut sizes = [None; 256];
    for object in objects {
        add_size(&mut sizes, object);
    }
    sizes
}

/// Adds the range of a parameter, where it is the first of its name.
fn add_range<'a>(
    ranges: &mut HashMap<&'a [u8], Range>,
    field: &'a ModelField,
) -> Result<(), AllocError>
    ensures { OnOk result ((name : List ℕ) → get_by (λ key. bytes_eq name key.now) ranges.new ≡ option_or (get_by (λ key. bytes_eq name key.now) ranges.old) (range_at name field.now)) }
{
    let name = field.name.as_slice();
    if !ranges.contains_key(&name) {
        let range = Range {
            min: field.min,
            max: field.max,
        };
        ranges.insert(name, range)?;
    }
    Ok(())
}

/// The ranges of parameters, by their names.
fn ranges_of<'a>(
    alloc: Global,
    parameters: &'a [ModelField],
) -> Result<HashMap<&'a [u8], Range>, AllocError>
    ensures { IfOk result (λ ranges. (name : List ℕ) → get_by (λ key. bytes_eq name key.now) ranges ≡ option_map range_of (field_in parameters.now name)) }
{
    let mut ranges = HashMap::new(alloc);
    for field in parameters {
        add_range(&mut ranges, field)?;
    }
    Ok(ranges)
}

impl<'a> ModelIndex<'a> {
    /// The index of the model that has nothing. It takes no memory.
    pub fn inline(alloc: Global) -> ModelIndex<'a>
        ensures { Indexes result inline }
    {
        ModelIndex {
            sizes: [None; 256],
            ranges: HashMap::new(alloc),
        }
    }

    /// The index of a model.
    pub fn of(alloc: Global, model: &'a Model) -> Result<ModelIndex<'a>, AllocError>
        ensures { IfOk result (λ index. Indexes index model.now) }
    {
        Ok(ModelIndex {
            sizes: sizes_of(model.objects.as_slice()),
            ranges: ranges_of(alloc, model.parameters.as_slice())?,
        })
    }

    /// The index of the model of a name, or none where it is unknown.
    pub fn named(
        alloc: Global,
        catalogue: &'a Catalogue,
        name: &[u8],
    ) -> Result<Option<ModelIndex<'a>>, AllocError>
        ensures { IfOk result (λ index. IndexesNamed index (model_named catalogue.now name.now)) }
    {
        if name == INLINE {
            return Ok(Some(ModelIndex::inline(alloc)));
        }
        match catalogue.model_in(name) {
            Some(model) => Ok(Some(ModelIndex::of(alloc, model)?)),
            None => Ok(None),
        }
    }

    /// The size code of the model's object of a number.
    pub fn size_of(&self, number: u8) -> Option<u8>
        ensures { (m : DeviceModel) → Indexes self.now m → result ≡ size_in_model (Some m) number }
    {
        self.sizes[usize::from(number)]
    }

    /// The range of the model's parameter of a name.
    pub fn range_of(&self, name: &[u8]) -> Option<Range>
        ensures { (m : DeviceModel) → Indexes self.now m → result ≡ option_map range_of (field_in m.parameters name.now) }
    {
        self.ranges.get(&name).copied()
    }
}
