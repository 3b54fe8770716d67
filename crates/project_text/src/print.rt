//! Statements are printed, one in a line.

ghost use Rattle.std.specs.Prelude.{◌≡◌, ◌≤◌, ◌∷◌, ◌++◌, length, OnOk, IfOk, Ok};
ghost use Rattle.std.specs.List.{join_with_byte, flat_map};
ghost use Rattle.knx_model.specs.Addresses.{group_text};
ghost use Rattle.knx_model.specs.Statements.{reading};
ghost use Rattle.knx_model.specs.declared.project.What.TheVariants.{Version, Title, Group, Device, Object, Link, Send, Flags, Param};
ghost use Rattle.project_text.specs.Printing.{words_of, line_text, printed, renumbered_from};

use crate::project::Project;
use knx_model::{
    GroupAddr, IndAddr, NoMemory, Octets, Statement, What, bits_of, put_device_word,
    put_flags_word, put_group_word, put_number_word, put_word,
};
use std::alloc::Global;

fn put_version(out: &mut Octets) -> Result<(), NoMemory>
    ensures { OnOk result (out.new ≡ out.old ++ join_with_byte 32 (words_of Version)) }
{
    out.append(b"version 2")
}

fn put_title(out: &mut Octets, name: &[u8]) -> Result<(), NoMemory>
    ensures { OnOk result (out.new ≡ out.old ++ join_with_byte 32 (words_of (Title name.now))) }
{
    out.append(b"project")?;
    put_word(out, name)
}

fn put_ga(alloc: Global, out: &mut Octets, group: GroupAddr, name: &[u8]) -> Result<(), NoMemory>
    ensures { OnOk result (out.new ≡ out.old ++ join_with_byte 32 (words_of (Group group name.now))) }
{
    out.append(b"ga")?;
    put_group_word(alloc, out, group)?;
    put_word(out, name)
}

fn put_device_line(
    alloc: Global,
    out: &mut Octets,
    device: IndAddr,
    model: &[u8],
) -> Result<(), NoMemory>
    ensures { OnOk result (out.new ≡ out.old ++ join_with_byte 32 (words_of (Device device model.now))) }
{
    out.append(b"device")?;
    put_device_word(alloc, out, device)?;
    put_word(out, model)
}

fn put_object(
    alloc: Global,
    out: &mut Octets,
    device: IndAddr,
    n: u8,
    size: u8,
    flags: u8,
) -> Result<(), NoMemory>
    ensures { OnOk result (out.new ≡ out.old ++ join_with_byte 32 (words_of (Object device n size flags))) }
{
    out.append(b"object")?;
    put_device_word(alloc, out, device)?;
    put_number_word(alloc, out, u64::from(n))?;
    put_number_word(alloc, out, u64::from(bits_of(size)))?;
    put_flags_word(alloc, out, flags)
}

/// Appends groups, each behind a space.
fn put_groups(alloc: Global, out: &mut Octets, groups: &[GroupAddr]) -> Result<(), NoMemory>
    ensures { OnOk result (out.new ≡ out.old ++ flat_map (λ g. 32 ∷ group_text g) groups.now) }
{
    for group in groups {
        put_group_word(alloc, out, *group)?;
    }
    Ok(())
}

fn put_link(
    alloc: Global,
    out: &mut Octets,
    device: IndAddr,
    object: u8,
    groups: &[GroupAddr],
) -> Result<(), NoMemory>
    ensures { OnOk result (out.new ≡ out.old ++ join_with_byte 32 (words_of (Link device object groups.now))) }
{
    out.append(b"link")?;
    put_device_word(alloc, out, device)?;
    put_number_word(alloc, out, u64::from(object))?;
    put_groups(alloc, out, groups)
}

fn put_send(
    alloc: Global,
    out: &mut Octets,
    device: IndAddr,
    object: u8,
    group: GroupAddr,
) -> Result<(), NoMemory>
    ensures { OnOk result (out.new ≡ out.old ++ join_with_byte 32 (words_of (Send device object group))) }
{
    out.append(b"send")?;
    put_device_word(alloc, out, device)?;
    put_number_word(alloc, out, u64::from(object))?;
    put_group_word(alloc, out, group)
}

fn put_flags_line(
    alloc: Global,
    out: &mut Octets,
    device: IndAddr,
    object: u8,
    flags: u8,
) -> Result<(), NoMemory>
    ensures { OnOk result (out.new ≡ out.old ++ join_with_byte 32 (words_of (Flags device object flags))) }
{
    out.append(b"flags")?;
    put_device_word(alloc, out, device)?;
    put_number_word(alloc, out, u64::from(object))?;
    put_flags_word(alloc, out, flags)
}

fn put_param(
    alloc: Global,
    out: &mut Octets,
    device: IndAddr,
    name: &[u8],
    value: u32,
) -> Result<(), NoMemory>
    ensures { OnOk result (out.new ≡ out.old ++ join_with_byte 32 (words_of (Param device name.now value))) }
{
    out.append(b"param")?;
    put_device_word(alloc, out, device)?;
    put_word(out, name)?;
    put_number_word(alloc, out, u64::from(value))
}

/// Appends the words of a statement.
fn put_words(alloc: Global, out: &mut Octets, what: &What<'_>) -> Result<(), NoMemory>
    ensures { OnOk result (out.new ≡ out.old ++ join_with_byte 32 (words_of what.now)) }
{
    match what {
        What::Version => put_version(out),
        What::Title(name) => put_title(out, name.as_slice()),
        What::Group { group, name } => put_ga(alloc, out, *group, name.as_slice()),
        What::Device { device, model } => put_device_line(alloc, out, *device, model.as_slice()),
        What::Object {
            device,
            n,
            size,
            flags,
        } => put_object(alloc, out, *device, *n, *size, *flags),
        What::Link {
            device,
            object,
            groups,
        } => put_link(alloc, out, *device, *object, groups.as_slice()),
        What::Send {
            device,
            object,
            group,
        } => put_send(alloc, out, *device, *object, *group),
        What::Flags {
            device,
            object,
            flags,
        } => put_flags_line(alloc, out, *device, *object, *flags),
        What::Param {
            device,
            name,
            value,
        } => put_param(alloc, out, *device, name.as_slice(), *value),
    }
}

#[tactic(auto, unfolding(crate::specs::Printing::line_text))]
fn put_line(alloc: Global, out: &mut Octets, what: &What<'_>) -> Result<(), NoMemory>
    ensures { OnOk result (out.new ≡ out.old ++ line_text what.now) }
{
    put_words(alloc, out, what)?;
    out.push(b'\n')
}

#[tactic(auto, unfolding(crate::specs::Printing::printed))]
fn print_all(alloc: Global, statements: &[Statement<'_>]) -> Result<Octets, NoMemory>
    ensures { IfOk result (λ text. text ≡ printed statements.now) }
{
    let mut out = Octets::new(alloc);
    for statement in statements {
        put_line(alloc, &mut out, &statement.what)?;
    }
    Ok(out)
}

/// The text of a project: one statement in a line, its words apart by one space. Flags stand in the order C R W T U I, sizes as
/// numbers of bits, addresses and numbers in decimal.
pub fn print_project(alloc: Global, project: &Project<'_>) -> Result<Octets, NoMemory>
    ensures text { IfOk result (λ text. text ≡ printed project.now.statements) }
    // What is printed reads as the same statements, numbered anew.
    ensures again { IfOk result (λ text. length text ≤ 4194304 → reading text ≡ Ok (renumbered_from 1 project.now.statements)) }
{
    print_all(alloc, project.statements.as_slice())
}
