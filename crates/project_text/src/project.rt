//! A project: statements that can be spelled, in lines that ascend.

ghost use Rattle.std.specs.Prelude.{◌≡◌, ◌%◌, ◌==◌, ◌&&◌, nat_lt, nat_le, not, drop, false, IfSome, IfNone, IsTrue};
ghost use Rattle.knx_model.specs.declared.project.What.TheVariants.{Send};
ghost use Rattle.std.specs.List.{list_all};
ghost use Rattle.knx_model.specs.Numbers.{is_name};
ghost use Rattle.knx_model.specs.Statements.{is_group, are_groups, most_groups, is_device, is_object, is_version, is_spellable, are_spelled, version_of, are_spellable, are_numbered};

use crate::fields::most_groups;
use knx_model::{GroupAddr, IndAddr, List, PRIORITY, Statement, TextVersion, What, is_name_in};

/// The statements of a text. Each can be spelled in the version of the text, which the first one alone may tell, and their lines ascend
/// from 1.
#[derive(Drop)]
pub struct Project<'a> {
    pub statements: List<Statement<'a>>,
    pub ghost spelled: { IsTrue (are_spellable statements) },
    pub ghost numbered: { IsTrue (are_numbered 0 statements) },
}

impl<'a> Project<'a> {
    /// The project of these statements; none where one of them can't be spelled in their version or tells it too late, or where
    /// their lines don't strictly ascend from 1.
    pub fn new(statements: List<Statement<'a>>) -> Option<Project<'a>>
        ensures some { IfSome result (λ p. p.statements ≡ statements.entry) }
        ensures none { IfNone result ((are_spellable statements.entry && are_numbered 0 statements.entry) ≡ false) }
    {
        if !are_spellable(statements.as_slice()) {
            return None;
        }
        if !are_numbered(statements.as_slice()) {
            return None;
        }
        Some(Project { statements })
    }
}

/// How many sizes an object may have: the size codes are 0 to 14.
const SIZES: u8 = 15;

fn is_group(group: GroupAddr) -> bool
    ensures { result ≡ is_group group }
{
    group.raw > 0
}

fn is_device(device: IndAddr) -> bool
    ensures { result ≡ is_device device }
{
    device.raw % 256 > 0 && device.raw % 256 < 255
}

fn is_object(n: u8) -> bool
    ensures { result ≡ is_object n }
{
    n > 0
}

/// Whether flags are an octet with the priority 3.
fn are_flags(flags: u8) -> bool
    ensures { result ≡ (flags % 4 == 3) }
{
    flags % 4 == PRIORITY
}

/// Whether a `link` line may have so many groups.
fn are_few(version: TextVersion, count: usize) -> bool
    ensures { result ≡ (nat_lt 0 count && nat_le count (most_groups version)) }
{
    count > 0 && count <= most_groups(version)
}

fn are_all_groups(groups: &[GroupAddr]) -> bool
    ensures { result ≡ list_all is_group groups.now }
{
    groups.iter().all(|group| is_group(*group))
}

fn are_groups(version: TextVersion, groups: &[GroupAddr]) -> bool
    ensures { result ≡ are_groups version groups.now }
{
    are_few(version, groups.len()) && are_all_groups(groups)
}

/// Whether a `send` line can be spelled: from version 2 on.
fn is_spellable_send(version: TextVersion, device: IndAddr, object: u8, group: GroupAddr) -> bool
    ensures { result ≡ is_spellable version (Send device object group) }
{
    match version {
        TextVersion::One => false,
        TextVersion::Two => is_device(device) && is_object(object) && is_group(group),
    }
}

/// Whether a statement can be spelled in this version.
fn is_spellable(version: TextVersion, what: &What<'_>) -> bool
    ensures { result ≡ is_spellable version what.now }
{
    match what {
        What::Version => true,
        What::Title(name) => is_name_in(name.as_slice()),
        What::Group { group, name } => is_group(*group) && is_name_in(name.as_slice()),
        What::Device { device, model } => is_device(*device) && is_name_in(model.as_slice()),
        What::Object {
            device,
            n,
            size,
            flags,
        } => is_device(*device) && is_object(*n) && *size < SIZES && are_flags(*flags),
        What::Link {
            device,
            object,
            groups,
        } => { is_device(*device) && is_object(*object) && are_groups(version, groups.as_slice()) }
        What::Send {
            device,
            object,
            group,
        } => is_spellable_send(version, *device, *object, *group),
        What::Flags {
            device,
            object,
            flags,
        } => is_device(*device) && is_object(*object) && are_flags(*flags),
        What::Param {
            device,
            name,
            value,
        } => {
            // Always so of a `u32`: the clause tells of any number.
            is_device(*device) && is_name_in(name.as_slice()) && *value <= u32::MAX
        }
    }
}

fn is_version(what: &What<'_>) -> bool
    ensures { result ≡ is_version what.now }
{
    matches!(what, What::Version)
}

/// The version of statements: 2 where the first one tells it.
fn version_of(statements: &[Statement<'_>]) -> TextVersion
    ensures { result ≡ version_of statements.now }
{
    match statements {
        [first, ..] if is_version(&first.what) => TextVersion::Two,
        _ => TextVersion::One,
    }
}

fn are_spelled(version: TextVersion, statements: &[Statement<'_>]) -> bool
    ensures { result ≡ are_spelled version statements.now }
{
    statements.iter().all(|s| is_spellable(version, &s.what))
}

/// Whether no statement tells a version.
fn none_tells(statements: &[Statement<'_>]) -> bool
    ensures { result ≡ list_all (λ s. not (is_version s.what)) statements.now }
{
    statements.iter().all(|s| !is_version(&s.what))
}

/// Whether no statement but the first tells a version.
fn is_told_first(statements: &[Statement<'_>]) -> bool
    ensures { result ≡ list_all (λ s. not (is_version s.what)) (drop 1 statements.now) }
{
    match statements {
        [] => true,
        [_, later @ ..] => none_tells(later),
    }
}

fn are_spellable(statements: &[Statement<'_>]) -> bool
    ensures { result ≡ are_spellable statements.now }
{
    are_spelled(version_of(statements), statements) && is_told_first(statements)
}

/// Whether lines strictly ascend from 1.
fn are_numbered(statements: &[Statement<'_>]) -> bool
    ensures { result ≡ are_numbered 0 statements.now }
{
    let mut above = 0;
    for statement in statements {
        if statement.line <= above {
            return false;
        }
        above = statement.line;
    }
    true
}
