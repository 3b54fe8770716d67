//! What the statements of a text declare, with the models that its devices name.

ghost use Rattle.std.specs.Prelude.{◌≡◌, ◌==◌, ◌||◌, ◌++◌, ℕ, Bool, List, [], ◌∷◌, Option, Some, None, true, slice_get, if◌then◌else◌, IfOk, OnOk, IfSome, IfNone};
ghost use Rattle.std.specs.Borrow.{Bor};
ghost use Rattle.std.specs.Option.{option_map, option_or};
ghost use Rattle.std.specs.HashMap.{get};
ghost use Rattle.knx_model.specs.declared.catalogue.model.Model.{Model};
ghost use Rattle.knx_model.specs.declared.catalogue.model.NamedModel.{NamedModel};
ghost use Rattle.knx_model.specs.declared.project.Statement.{Statement as Stated};
ghost use Rattle.knx_model.specs.Rules.{some_line, first_some, linked_in, has_group, declares_group, declares_device, size_in, model_in, model_of, or_else};
ghost use Rattle.project_check.specs.Keys.{object_eq, names_model};
ghost use Rattle.project_check.specs.Knowing.{Holds, AreNamed, IsNamed, KeepsModels, Declares, Indexes, FirstObjects, known_at, known_object, known_parameter};
ghost use Rattle.project_check.specs.declared.known.KnownObject.{KnownObject as Known};

use crate::by_address::ByAddress;
use crate::group_object::GroupObject;
use crate::known::{KnownObject, KnownParameter};
use crate::models::ModelIndex;
use crate::named_models::NamedModels;
use knx_model::{GroupAddr, Statement, What};
use std::alloc::{AllocError, Global};
use std::collections::HashMap;

/// What statements declare: the groups, the model of each device, none where it is unknown, and the size code in the first line of
/// each group object.
#[derive(Drop)]
pub struct Declared<'b, 'a> {
    pub groups: ByAddress<bool>,
    pub devices: ByAddress<Option<Option<&'b ModelIndex<'a>>>>,
    pub sizes: HashMap<GroupObject, u8>,
}

/// Adds the group of a `ga` line.
fn add_group(groups: &mut ByAddress<bool>, what: &What<'_>)
    ensures { (f : ℕ → Bool) → Holds groups.old f → Holds groups.new (λ g. f g || declares_group g what.now) }
{
    if let What::Group { group, .. } = what {
        groups.set(group.raw, true);
    }
}

/// Adds the model of a `device` line, where it is the device's first.
fn add_device<'b, 'a>(
    devices: &mut ByAddress<Option<Option<&'b ModelIndex<'a>>>>,
    models: &'b NamedModels<'a>,
    what: &'a What<'a>,
)
    ensures { (catalogue : List NamedModel) (all : List Stated) (names : ℕ → Option (List ℕ)) → AreNamed catalogue models.now all → IsNamed all what.now → KeepsModels catalogue devices.old names → KeepsModels catalogue devices.new (λ a. option_or (names a) (model_in a what.now)) }
{
    if let What::Device { device, model } = what {
        if devices.get(device.raw).is_none() {
            devices.set(device.raw, Some(models.named(model.as_slice())));
        }
    }
}

/// Adds the size code in an `object` line, where it is the group object's first.
fn add_size(sizes: &mut HashMap<GroupObject, u8>, what: &What<'_>) -> Result<(), AllocError>
    ensures { OnOk result ((o : GroupObject) → get object_eq sizes.new o ≡ option_or (get object_eq sizes.old o) (size_in o.device o.number what.now)) }
{
    if let What::Object {
        device,
        n,
        size,
        ..
    } = what
    {
        let object = GroupObject {
            device: device.raw,
            number: *n,
        };
        if !sizes.contains_key(&object) {
            sizes.insert(object, *size)?;
        }
    }
    Ok(())
}

impl<'b, 'a> Declared<'b, 'a> {
    /// What no statements declare.
    pub fn new(alloc: Global) -> Result<Declared<'b, 'a>, AllocError>
        ensures { IfOk result (λ declared. (catalogue : List NamedModel) → Declares catalogue declared []) }
    {
        Ok(Declared {
            groups: ByAddress::new(alloc, false)?,
            devices: ByAddress::new(alloc, None)?,
            sizes: HashMap::new(alloc),
        })
    }

    /// Adds what a statement declares.
    pub fn add(
        &mut self,
        models: &'b NamedModels<'a>,
        statement: &'a Statement<'a>,
    ) -> Result<(), AllocError>
        ensures { OnOk result ((catalogue : List NamedModel) (before all : List Stated) → AreNamed catalogue models.now all → IsNamed all statement.now.what → Declares catalogue self.old before → Declares catalogue self.new (before ++ statement.now ∷ [])) }
    {
        add_group(&mut self.groups, &statement.what);
        add_device(&mut self.devices, models, &statement.what);
        add_size(&mut self.sizes, &statement.what)?;
        Ok(())
    }

    /// What all of these statements declare.
    pub fn by_all(
        alloc: Global,
        models: &'b NamedModels<'a>,
        statements: &'a [Statement<'a>],
    ) -> Result<Declared<'b, 'a>, AllocError>
        ensures { IfOk result (λ declared. (catalogue : List NamedModel) → AreNamed catalogue models.now statements.now → Declares catalogue declared statements.now) }
    {
        let mut declared = Declared::new(alloc)?;
        for statement in statements {
            declared.add(models, statement)?;
        }
        Ok(declared)
    }

    /// Whether a `ga` line declares the group.
    pub fn has_group(&self, group: u16) -> bool
        ensures { (catalogue : List NamedModel) (ss : List Stated) → Declares catalogue self.now ss → result ≡ some_line (declares_group group) ss }
    {
        self.groups.get(group)
    }

    /// Whether a `device` line declares the device.
    pub fn has_device(&self, device: u16) -> bool
        ensures { (catalogue : List NamedModel) (ss : List Stated) → Declares catalogue self.now ss → result ≡ some_line (declares_device device) ss }
    {
        self.devices.get(device).is_some()
    }

    /// The model of a device; none where it has no `device` line, or the model of its first is unknown.
    pub fn model(&self, device: u16) -> Option<&'b ModelIndex<'a>>
        ensures some { IfSome result (λ index. (catalogue : List NamedModel) (ss : List Stated) → Declares catalogue self.now ss → (m : Model) × (model_of catalogue ss device ≡ Some m) × Indexes index.now m) }
        ensures none { IfNone result ((catalogue : List NamedModel) (ss : List Stated) → Declares catalogue self.now ss → model_of catalogue ss device ≡ None) }
    {
        self.devices.get(device).flatten()
    }

    /// What is known of a parameter of a device.
    pub fn known_parameter(&self, device: u16, name: &[u8]) -> KnownParameter
        ensures { (catalogue : List NamedModel) (ss : List Stated) → Declares catalogue self.now ss → result ≡ known_parameter catalogue ss device name.now }
    {
        match self.model(device) {
            Some(index) => KnownParameter {
                modelled: true,
                range: index.range_of(name),
            },
            None => KnownParameter {
                modelled: false,
                range: None,
            },
        }
    }

    /// The size code of a group object in its first `object` line.
    fn line_size(&self, object: GroupObject) -> Option<u8>
        ensures { (catalogue : List NamedModel) (ss : List Stated) → Declares catalogue self.now ss → result ≡ first_some (size_in object.device object.number) ss }
    {
        self.sizes.get(&object).copied()
    }

    /// A size code that is known, or else that of the first `object` line.
    fn size_or_line(&self, size: Option<u8>, object: GroupObject) -> Option<u8>
        ensures { (catalogue : List NamedModel) (ss : List Stated) → Declares catalogue self.now ss → result ≡ or_else size (first_some (size_in object.device object.number) ss) }
    {
        match size {
            Some(size) => Some(size),
            None => self.line_size(object),
        }
    }

    /// What is known of a group object.
    pub fn known_object(&self, object: GroupObject) -> KnownObject
        ensures { (catalogue : List NamedModel) (ss : List Stated) → Declares catalogue self.now ss → result ≡ known_object catalogue ss object.device object.number }
    {
        match self.model(object.device) {
            Some(index) => KnownObject {
                modelled: true,
                size: self.size_or_line(index.size_of(object.number), object),
            },
            None => KnownObject {
                modelled: false,
                size: self.line_size(object),
            },
        }
    }
}

/// Adds what is known of a group object to a group that has none.
fn add_to_group(
    first_objects: &mut ByAddress<Option<KnownObject>>,
    declared: &Declared<'_, '_>,
    object: GroupObject,
    group: u16,
)
    ensures { (catalogue : List NamedModel) (ss : List Stated) → Declares catalogue declared.now ss → (f : ℕ → Option Known) → Holds first_objects.old f → Holds first_objects.new (λ g. option_or (f g) (if group == g then Some (known_object catalogue ss object.device object.number) else None)) }
{
    if first_objects.get(group).is_none() {
        first_objects.set(group, Some(declared.known_object(object)));
    }
}

/// Adds it to those of these groups that have none.
fn add_to_groups(
    first_objects: &mut ByAddress<Option<KnownObject>>,
    declared: &Declared<'_, '_>,
    object: GroupObject,
    groups: &[GroupAddr],
)
    ensures { (catalogue : List NamedModel) (ss : List Stated) → Declares catalogue declared.now ss → (f : ℕ → Option Known) → Holds first_objects.old f → Holds first_objects.new (λ g. option_or (f g) (if has_group g groups.now then Some (known_object catalogue ss object.device object.number) else None)) }
{
    for group in groups {
        add_to_group(first_objects, declared, object, group.raw);
    }
}

/// Adds what is known of the group object of a `link` line to those of its groups that have none.
fn add_first_object(
    first_objects: &mut ByAddress<Option<KnownObject>>,
    declared: &Declared<'_, '_>,
    what: &What<'_>,
)
    ensures { (catalogue : List NamedModel) (ss : List Stated) → Declares catalogue declared.now ss → (f : ℕ → Option Known) → Holds first_objects.old f → Holds first_objects.new (λ g. option_or (f g) (option_map (known_at catalogue ss) (linked_in g what.now))) }
{
    if let What::Link {
        device,
        object,
        groups,
    } = what
    {
        let object = GroupObject {
            device: device.raw,
            number: *object,
        };
        add_to_groups(first_objects, declared, object, groups.as_slice());
    }
}

/// What is known of the group object of the first `link` line of each group; none where a group has no such line.
pub fn first_objects(
    alloc: Global,
    declared: &Declared<'_, '_>,
    statements: &[Statement<'_>],
) -> Result<ByAddress<Option<KnownObject>>, AllocError>
    ensures { IfOk result (λ objects. (catalogue : List NamedModel) → Declares catalogue declared.now statements.now → FirstObjects catalogue statements.now objects) }
{
    let mut objects = ByAddress::new(alloc, None)?;
    for statement in statements {
        add_first_object(&mut objects, declared, &statement.what);
    }
    Ok(objects)
}
