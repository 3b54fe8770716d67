//! What the lines of a device say, gathered in one pass over the text.

ghost use Rattle.std.specs.Prelude.{◌≡◌, ◌==◌, ℕ, ◌<◌, true, false, List, [], ◌∷◌, ◌++◌, None, Some, length, map, slice_get, slice_index_or, if◌then◌else◌, IfOk, OnOk, IfSome, IfNone};
ghost use Rattle.std.specs.List.{list_any};
ghost use Rattle.std.specs.List.Sorted.{IsStrictlyIncreasing};
ghost use Rattle.knx_model.specs.declared.address.IndAddr.{IndAddr as Address};
ghost use Rattle.knx_model.specs.declared.project.Statement.{Statement as Stated};
ghost use Rattle.knx_model.specs.Meaning.{link_to};
ghost use Rattle.project_check.specs.Devices.{raw_of};
ghost use Rattle.table_compiler.specs.Drafts.{names, Adds, AreDrafts, IsDraft};

use crate::devices::place_of;
use knx_model::{GroupAddr, IndAddr, ObjSpec, Statement, What};
use std::alloc::{AllocError, Global};
use std::collections::BTreeMap;

/// What the lines of a device say.
#[derive(Drop)]
pub struct Draft<'a> {
    /// The model's name in its first `device` line.
    pub model: Option<&'a [u8]>,
    /// The number, flags and size in each of its `object` lines, in order.
    pub objects: Vec<(u8, ObjSpec)>,
    /// The flags of the last `flags` line of each object.
    pub flags: [Option<u8>; 256],
    /// The object and each group of its `link` lines, in order.
    pub links: Vec<(u8, GroupAddr)>,
    /// The group of the last `send` line of each object.
    pub sends: [Option<GroupAddr>; 256],
    /// The value of the last `param` line of each name.
    pub values: BTreeMap<&'a [u8], u32>,
}

/// Keeps the flags of an object.
fn keep_flags(kept: &mut [Option<u8>; 256], object: u8, flags: u8)
    ensures whole { length kept.new ≡ 256 }
    ensures each { (n : ℕ) → n < 256 → slice_index_or kept.new n None ≡ (if object == n then Some flags else slice_index_or kept.old n None) }
{
    kept[usize::from(object)] = Some(flags);
}

/// Keeps the sending group of an object.
fn keep_send(kept: &mut [Option<GroupAddr>; 256], object: u8, group: GroupAddr)
    ensures whole { length kept.new ≡ 256 }
    ensures each { (n : ℕ) → n < 256 → slice_index_or kept.new n None ≡ (if object == n then Some group else slice_index_or kept.old n None) }
{
    kept[usize::from(object)] = Some(group);
}

/// Adds the links of an object to these groups.
fn add_links(
    links: &mut Vec<(u8, GroupAddr)>,
    object: u8,
    groups: &[GroupAddr],
) -> Result<(), AllocError>
    ensures { OnOk result (links.new.items ≡ links.old.items ++ map (link_to object) groups.now) }
{
    for group in groups {
        links.push((object, *group))?;
    }
    Ok(())
}

impl<'a> Draft<'a> {
    /// What no lines say. It takes no memory.
    fn new(alloc: Global) -> Draft<'a>
        ensures { (device : Address) → IsDraft device result [] }
    {
        Draft {
            model: None,
            objects: Vec::new(alloc),
            flags: [None; 256],
            links: Vec::new(alloc),
            sends: [None; 256],
            values: BTreeMap::new(alloc),
        }
    }

    /// Adds what a line of the device says.
    fn add(&mut self, what: &What<'a>) -> Result<(), AllocError>
        ensures { OnOk result ((device : Address) → names device.raw what.now ≡ true → Adds device what.now self.old self.new) }
    {
        match what {
            What::Version | What::Title(_) | What::Group { .. } => Ok(()),
            What::Device { model, .. } => {
                self.model = self.model.or(Some(model.as_slice()));
                Ok(())
            }
            What::Object { n, size, flags, .. } => {
                let spec = ObjSpec {
                    flags: *flags,
                    size: *size,
                };
                self.objects.push((*n, spec))?;
                Ok(())
            }
            What::Link { object, groups, .. } => {
                add_links(&mut self.links, *object, groups.as_slice())
            }
            What::Send { object, group, .. } => {
                keep_send(&mut self.sends, *object, *group);
                Ok(())
            }
            What::Flags { object, flags, .. } => {
                keep_flags(&mut self.flags, *object, *flags);
                Ok(())
            }
            What::Param { name, value, .. } => {
                self.values.insert(name.as_slice(), *value)?;
                Ok(())
            }
        }
    }
}

/// The device that a statement names.
fn device_of(what: &What<'_>) -> Option<IndAddr>
    ensures some { IfSome result (λ device. (d : ℕ) → names d what.now ≡ (device.raw == d)) }
    ensures none { IfNone result ((d : ℕ) → names d what.now ≡ false) }
{
    match what {
        What::Device { device, .. }
        | What::Object { device, .. }
        | What::Link { device, .. }
        | What::Send { device, .. }
        | What::Flags { device, .. }
        | What::Param { device, .. } => Some(*device),
        What::Version | What::Title(_) | What::Group { .. } => None,
    }
}

/// Whether a statement names the device.
fn names(device: IndAddr, what: &What<'_>) -> bool
    ensures { result ≡ names device.raw what.now }
{
    match device_of(what) {
        Some(named) => named.raw == device.raw,
        None => false,
    }
}

/// Adds a line to what the device's lines say, where it is one of these.
fn add_own<'a>(
    draft: &mut Draft<'a>,
    device: IndAddr,
    statement: &Statement<'a>,
) -> Result<(), AllocError>
    ensures { OnOk result ((ss : List Stated) → IsDraft device draft.old ss → IsDraft device draft.new (ss ++ statement.now ∷ [])) }
{
    if names(device, &statement.what) {
        draft.add(&statement.what)?;
    }
    Ok(())
}

/// What the lines of one device say.
pub fn draft_of<'a>(
    alloc: Global,
    device: IndAddr,
    statements: &[Statement<'a>],
) -> Result<Draft<'a>, AllocError>
    ensures { IfOk result (λ draft. IsDraft device draft statements.now) }
{
    let mut draft = Draft::new(alloc);
    for statement in statements {
        add_own(&mut draft, device, statement)?;
    }
    Ok(draft)
}

/// The place of the device that a statement names, where it is one of these.
fn place_among(devices: &[IndAddr], what: &What<'_>) -> Option<usize>
    requires { IsStrictlyIncreasing (map raw_of devices.now) }
    ensures some { IfSome result (λ place. (device : Address) × (place < length devices.now) × (slice_get devices.now place ≡ Some device) × (names device.raw what.now ≡ true)) }
    ensures none { IfNone result (list_any (λ d. names d.raw what.now) devices.now ≡ false) }
{
    place_of(devices, device_of(what)?)
}

/// Adds a line to what the lines of its device say, where that is one of these.
fn add<'a>(
    drafts: &mut [Draft<'a>],
    devices: &[IndAddr],
    statement: &Statement<'a>,
) -> Result<(), AllocError>
    requires ascending { IsStrictlyIncreasing (map raw_of devices.now) }
    requires whole { length drafts.old ≡ length devices.now }
    ensures whole { length drafts.new ≡ length devices.now }
    ensures added { OnOk result ((ss : List Stated) → AreDrafts devices.now drafts.old ss → AreDrafts devices.now drafts.new (ss ++ statement.now ∷ [])) }
{
    if let Some(place) = place_among(devices, &statement.what) {
        drafts[place].add(&statement.what)?;
    }
    Ok(())
}

/// For each device what no lines say.
fn no_lines<'a>(alloc: Global, devices: &[IndAddr]) -> Result<Vec<Draft<'a>>, AllocError>
    ensures { IfOk result (λ drafts. AreDrafts devices.now drafts.items []) }
{
    let mut drafts = Vec::new(alloc);
    for _device in devices {
        drafts.push(Draft::new(alloc))?;
    }
    Ok(drafts)
}

/// What the lines of each of these devices say, in one pass over the text.
pub fn drafts_of<'a>(
    alloc: Global,
    devices: &[IndAddr],
    statements: &[Statement<'a>],
) -> Result<Vec<Draft<'a>>, AllocError>
    requires { IsStrictlyIncreasing (map raw_of devices.now) }
    ensures { IfOk result (λ drafts. AreDrafts devices.now drafts.items statements.now) }
{
    let mut drafts = no_lines(alloc, devices)?;
    for statement in statements {
        add(&mut drafts, devices, statement)?;
    }
    Ok(drafts)
}
