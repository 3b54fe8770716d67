//! A project is written as one of version 2.

ghost use Rattle.std.specs.Prelude.{◌≡◌, ℕ, ◌+◌, ◌*◌, ◌<◌, ◌≤◌, ◌==◌, ◌∷◌, [], List as Seq, length, map, Some, None, Ok, IfOk, OnOk, OnErr, IsTrue, if◌then◌else◌};
ghost use Rattle.std.specs.Ordering.{nat_cmp};
ghost use Rattle.std.specs.Option.{option_or};
ghost use Rattle.std.specs.BTreeMap.{get, IsOrdered};
ghost use Rattle.knx_model.specs.Numbers.{is_name};
ghost use Rattle.knx_model.specs.Meaning.{links_said, send_line, first_group, meaning};
ghost use Rattle.knx_model.specs.Rules.{first_broken};
ghost use Rattle.knx_model.specs.Statements.{is_spellable, are_spelled, reading};
ghost use Rattle.knx_model.specs.declared.address.IndAddr.{IndAddr as Device};
ghost use Rattle.knx_model.specs.declared.catalogue.model.NamedModel.{NamedModel};
ghost use Rattle.knx_model.specs.declared.project.TextVersion.{TextVersion as Version};
ghost use Rattle.knx_model.specs.declared.project.What.TheVariants.{Link, Send};
ghost use Rattle.project_text.specs.Migrated.{link_to_one, one_by_one, kept, device_at, object_at, numbered_after, migrated};
ghost use Rattle.project_text.specs.Printing.{printed};
ghost use Rattle.project_text.specs.Sending.{KeepsFirst, KeepsLast, ArePlaces, kept_send};

use crate::project::Project;
use knx_model::{GroupAddr, Groups, IndAddr, List, Name, NoMemory, Statement, What};
use std::alloc::{AllocError, Global};
use std::collections::BTreeMap;

// ---- the sending addresses

/// The place of an object in the row of all objects, by device and object ascending.
fn place(device: IndAddr, object: u8) -> u32
    ensures { result ≡ device.raw * 256 + object }
{
    u32::from(device.raw) * 256 + u32::from(object)
}

/// Keeps the group at a place that has none.
fn keep_first(
    first: &mut BTreeMap<u32, GroupAddr>,
    place: u32,
    group: GroupAddr,
) -> Result<(), NoMemory>
    ensures { OnOk result ((k : ℕ) → get nat_cmp first.new k ≡ option_or (get nat_cmp first.old k) (if place == k then Some group else None)) }
{
    if !first.contains_key(&place) {
        first.insert(place, group)?;
    }
    Ok(())
}

/// Keeps the group at a place, in place of an earlier one.
fn keep_last(
    last: &mut BTreeMap<u32, GroupAddr>,
    place: u32,
    group: GroupAddr,
) -> Result<(), NoMemory>
    ensures { OnOk result ((k : ℕ) → get nat_cmp last.new k ≡ option_or (if place == k then Some group else None) (get nat_cmp last.old k)) }
{
    last.insert(place, group)?;
    Ok(())
}

/// Keeps the first group of a `link` line, where it has the object's first link.
fn add_link(
    first: &mut BTreeMap<u32, GroupAddr>,
    device: IndAddr,
    object: u8,
    groups: &[GroupAddr],
) -> Result<(), NoMemory>
    ensures { OnOk result ((k : ℕ) → get nat_cmp first.new k ≡ option_or (get nat_cmp first.old k) (first_group (links_said (device_at k) (Link device object groups.now)) (object_at k))) }
{
    match groups.first() {
        Some(group) => keep_first(first, place(device, object), *group),
        None => Ok(()),
    }
}

/// Keeps the group of a `send` line.
fn add_send(
    last: &mut BTreeMap<u32, GroupAddr>,
    device: IndAddr,
    object: u8,
    group: GroupAddr,
) -> Result<(), NoMemory>
    ensures { OnOk result ((k : ℕ) → get nat_cmp last.new k ≡ option_or (send_line (device_at k) (object_at k) (Send device object group)) (get nat_cmp last.old k)) }
{
    keep_last(last, place(device, object), group)
}

fn add_first(first: &mut BTreeMap<u32, GroupAddr>, what: &What<'_>) -> Result<(), NoMemory>
    ensures { OnOk result ((k : ℕ) → get nat_cmp first.new k ≡ option_or (get nat_cmp first.old k) (first_group (links_said (device_at k) what.now) (object_at k))) }
{
    match what {
        What::Link {
            device,
            object,
            groups,
        } => add_link(first, *device, *object, groups.as_slice()),
        _ => Ok(()),
    }
}

fn add_last(last: &mut BTreeMap<u32, GroupAddr>, what: &What<'_>) -> Result<(), NoMemory>
    ensures { OnOk result ((k : ℕ) → get nat_cmp last.new k ≡ option_or (send_line (device_at k) (object_at k) what.now) (get nat_cmp last.old k)) }
{
    match what {
        What::Send {
            device,
            object,
            group,
        } => add_send(last, *device, *object, *group),
        _ => Ok(()),
    }
}

/// The group of the first link of each object that has links.
fn firsts(alloc: Global, statements: &[Statement<'_>]) -> Result<BTreeMap<u32, GroupAddr>, NoMemory>
    ensures { IfOk result (λ first. KeepsFirst first statements.now) }
{
    let mut first = BTreeMap::new(alloc);
    for statement in statements {
        add_first(&mut first, &statement.what)?;
    }
    Ok(first)
}

/// The group of the last `send` line of each object that has one.
fn lasts(alloc: Global, statements: &[Statement<'_>]) -> Result<BTreeMap<u32, GroupAddr>, NoMemory>
    ensures { IfOk result (λ last. KeepsLast last statements.now) }
{
    let mut last = BTreeMap::new(alloc);
    for statement in statements {
        add_last(&mut last, &statement.what)?;
    }
    Ok(last)
}

// ---- the statements

/// The number of the line behind so many. There is no memory for a project of more lines than a number can have.
fn line_after(count: usize) -> Result<u32, NoMemory>
    ensures next { IfOk result (λ line. line ≡ count + 1) }
    ensures long { OnErr result (4294967295 ≤ count) }
{
    if count >= u32::MAX as usize {
        return Err(NoMemory::from(AllocError));
    }
    Ok(count as u32 + 1)
}

/// Appends a statement in the next line.
fn put<'a>(out: &mut List<Statement<'a>>, what: What<'a>) -> Result<(), NoMemory>
    ensures { OnOk result (out.new ≡ numbered_after out.old (what.entry ∷ [])) }
{
    let line = line_after(out.len())?;
    out.push(Statement { line, what })
}

/// Appends a `link` line for each of the groups.
fn put_links(
    out: &mut List<Statement<'_>>,
    device: IndAddr,
    object: u8,
    groups: &[GroupAddr],
) -> Result<(), NoMemory>
    ensures { OnOk result (out.new ≡ numbered_after out.old (map (link_to_one device object) groups.now)) }
{
    for group in groups {
        put(
            out,
            What::Link {
                device,
                object,
                groups: Groups::one(*group),
            },
        )?;
    }
    Ok(())
}

/// The same name.
fn again<'a>(name: &Name<'a>) -> Name<'a>
    requires { IsTrue (is_name name.now) }
    ensures { result ≡ name.now }
{
    Name::of(name.as_slice()).unwrap()
}

/// Appends what a statement becomes.
fn put_kept<'a>(out: &mut List<Statement<'a>>, what: &What<'a>) -> Result<(), NoMemory>
    requires { (version : Version) × IsTrue (is_spellable version what.now) }
    ensures { OnOk result (out.new ≡ numbered_after out.old (one_by_one what.now)) }
{
    match what {
        What::Version => Ok(()),
        What::Title(name) => put(out, What::Title(again(name))),
        What::Group { group, name } => put(
            out,
            What::Group {
                group: *group,
                name: again(name),
            },
        ),
        What::Device { device, model } => put(
            out,
            What::Device {
                device: *device,
                model: again(model),
            },
        ),
        What::Object {
            device,
            n,
            size,
            flags,
        } => put(
            out,
            What::Object {
                device: *device,
                n: *n,
                size: *size,
                flags: *flags,
            },
        ),
        What::Link {
            device,
            object,
            groups,
        } => put_links(out, *device, *object, groups.as_slice()),
        What::Send { .. } => Ok(()),
        What::Flags {
            device,
            object,
            flags: octet,
        } => put(
            out,
            What::Flags {
                device: *device,
                object: *object,
                flags: *octet,
            },
        ),
        What::Param {
            device,
            name,
            value,
        } => put(
            out,
            What::Param {
                device: *device,
                name: again(name),
                value: *value,
            },
        ),
    }
}

/// Appends what all statements become.
#[tactic(auto, unfolding(crate::specs::Migrated::kept))]
fn put_all_kept<'a>(
    out: &mut List<Statement<'a>>,
    statements: &[Statement<'a>],
) -> Result<(), NoMemory>
    requires { (version : Version) × IsTrue (are_spelled version statements.now) }
    ensures { OnOk result (out.new ≡ numbered_after out.old (kept statements.now)) }
{
    for statement in statements {
        put_kept(out, &statement.what)?;
    }
    Ok(())
}

/// Appends the `send` line of the object at a place.
fn put_send(
    out: &mut List<Statement<'_>>,
    last: &BTreeMap<u32, GroupAddr>,
    place: u32,
    first: GroupAddr,
) -> Result<(), NoMemory>
    requires { place < 16777216 }
    ensures { OnOk result (out.new ≡ numbered_after out.old (kept_send last.now (place, first) ∷ [])) }
{
    let group = last.get(&place).copied().unwrap_or(first);
    let device = IndAddr {
        raw: (place / 256) as u16,
    };
    put(
        out,
        What::Send {
            device,
            object: (place % 256) as u8,
            group,
        },
    )
}

/// Appends the `send` line of each object that has links.
fn put_sends(
    out: &mut List<Statement<'_>>,
    first: &BTreeMap<u32, GroupAddr>,
    last: &BTreeMap<u32, GroupAddr>,
) -> Result<(), NoMemory>
    requires { ArePlaces first.now.entries }
    ensures made { OnOk result (out.new ≡ numbered_after out.old (map (kept_send last.now) first.now.entries)) }
    ensures ordered { IsOrdered nat_cmp first.now }
{
    for (place, group) in first.iter() {
        put_send(out, last, *place, *group)?;
    }
    Ok(())
}

/// The statements as those of version 2.
fn made<'a>(alloc: Global, statements: &[Statement<'a>]) -> Result<List<Statement<'a>>, NoMemory>
    requires { (version : Version) × IsTrue (are_spelled version statements.now) }
    ensures { IfOk result (λ made. made ≡ migrated statements.now) }
{
    let first = firsts(alloc, statements)?;
    let last = lasts(alloc, statements)?;
    let mut out = List::new(alloc);
    put(&mut out, What::Version)?;
    put_all_kept(&mut out, statements)?;
    put_sends(&mut out, &first, &last)?;
    Ok(out)
}

/// The project as one of version 2: the line `version 2`, its statements without `version` and `send` and with one group in each
/// `link` line, and then a `send` line for each object that has links.
pub fn migrate<'a>(alloc: Global, project: &Project<'a>) -> Result<Project<'a>, NoMemory>
    ensures value { IfOk result (λ made. made.statements ≡ migrated project.now.statements) }
    // It means for each device what the project means.
    ensures same { IfOk result (λ made. (catalogue : Seq NamedModel) (device : Device) → meaning (record { statements = made.statements; catalogue = catalogue }) device ≡ meaning (record { statements = project.now.statements; catalogue = catalogue }) device) }
    // Where the project breaks no rule, it breaks none.
    ensures sound { IfOk result (λ made. (catalogue : Seq NamedModel) → first_broken catalogue project.now.statements ≡ None → first_broken catalogue made.statements ≡ None) }
    // Migrated once more it stays, and its text reads as it.
    ensures twice { IfOk result (λ made. migrated made.statements ≡ made.statements) }
    ensures again { IfOk result (λ made. length (printed made.statements) ≤ 4194304 → reading (printed made.statements) ≡ Ok made.statements) }
{
    let statements = made(alloc, project.statements.as_slice())?;
    Ok(Project { statements })
}
