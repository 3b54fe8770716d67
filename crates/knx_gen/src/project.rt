//! The project that a number makes: its groups, and its devices with their objects and links.

ghost use Rattle.std.specs.Prelude.{◌≡◌, ℕ, ◌+◌, ◌*◌, ◌^◌, ◌<◌, ◌≤◌, ◌++◌, codes, length, IfOk, OnOk};
ghost use Rattle.knx_gen.specs.Draws.{state_at};
ghost use Rattle.knx_gen.specs.Generated.{group_lines, device_at, object_lines, link_lines, object_links, device_lines, all_device_lines, numbered_from, generated};

use crate::group_names::{GROUPS, GroupNames};
use crate::numbers::Numbers;
use knx_model::{
    COMMUNICATE, GroupAddr, Groups, IndAddr, List, Name, NoMemory, PRIORITY, READ, Statement,
    TRANSMIT, UPDATE, WRITE, What,
};
use project_text::Project;
use std::alloc::Global;

/// How many objects a device has. Their numbers are 1 to this number.
const OBJECTS: u8 = 8;

/// The flags `CRWTU`.
const FLAGS: u8 = PRIORITY | COMMUNICATE | READ | WRITE | TRANSMIT | UPDATE;

/// The size code of one bit.
const ONE_BIT: u8 = 0;

/// How many groups in a row an object is linked to.
const LINKS: u16 = 4;

/// How many groups may be the first of these.
const FIRST_GROUPS: u32 = 2000;

/// The individual address 1.1.0.
const LINE: u16 = 0x1100;

/// The individual address 1.1.d.
fn device_at(d: u16) -> IndAddr
    requires { d ≤ 254 }
    ensures { result ≡ device_at d }
{
    IndAddr { raw: LINE + d }
}

/// The model of a device that has just what the project says.
fn inline_model<'a>() -> Name<'a>
    ensures { result ≡ codes "inline" }
{
    Name::of(b"inline").unwrap()
}

/// Appends the lines of the groups.
fn put_groups<'a>(lines: &mut List<What<'a>>, names: &'a GroupNames) -> Result<(), NoMemory>
    ensures { OnOk result (lines.new ≡ lines.old ++ group_lines 2003) }
{
    for place in 0..GROUPS {
        let raw = place + 1;
        let group = GroupAddr { raw };
        let name = names.name_of(raw);
        lines.push(What::Group { group, name })?;
    }
    Ok(())
}

/// Appends the lines of a device's objects.
fn put_objects(lines: &mut List<What<'_>>, device: IndAddr) -> Result<(), NoMemory>
    ensures { OnOk result (lines.new ≡ lines.old ++ object_lines device 8) }
{
    for place in 0..OBJECTS {
        lines.push(What::Object {
            device,
            n: place + 1,
            size: ONE_BIT,
            flags: FLAGS,
        })?;
    }
    Ok(())
}

/// Appends the links of one object, which begin with this group.
fn put_links(
    lines: &mut List<What<'_>>,
    device: IndAddr,
    object: u8,
    first: u16,
) -> Result<(), NoMemory>
    requires { first ≤ 2000 }
    ensures { OnOk result (lines.new ≡ lines.old ++ link_lines device object first 4) }
{
    for more in 0..LINKS {
        let group = GroupAddr { raw: first + more };
        lines.push(What::Link {
            device,
            object,
            groups: Groups::one(group),
        })?;
    }
    Ok(())
}

/// Appends the links of a device's objects, each by the next number.
fn put_object_links(
    lines: &mut List<What<'_>>,
    numbers: &mut Numbers,
    device: IndAddr,
) -> Result<(), NoMemory>
    ensures lines { OnOk result (lines.new ≡ lines.old ++ object_links numbers.old.state device 8) }
    ensures state { OnOk result (numbers.new.state ≡ state_at numbers.old.state 8) }
{
    for place in 0..OBJECTS {
        let first = 1 + numbers.draw() % FIRST_GROUPS;
        put_links(lines, device, place + 1, first as u16)?;
    }
    Ok(())
}

/// Appends the lines of a device, whose objects take the next eight numbers.
fn put_device(
    lines: &mut List<What<'_>>,
    numbers: &mut Numbers,
    device: IndAddr,
) -> Result<(), NoMemory>
    ensures lines { OnOk result (lines.new ≡ lines.old ++ device_lines numbers.old.state device) }
    ensures state { OnOk result (numbers.new.state ≡ state_at numbers.old.state 8) }
{
    let model = inline_model();
    lines.push(What::Device { device, model })?;
    put_objects(lines, device)?;
    put_object_links(lines, numbers, device)
}

/// Appends the lines of the devices 1.1.1 to 1.1.n.
fn put_devices(lines: &mut List<What<'_>>, n: u16, start: u64) -> Result<(), NoMemory>
    requires { n ≤ 254 }
    ensures { OnOk result (lines.new ≡ lines.old ++ all_device_lines start n) }
{
    let mut numbers = Numbers { state: start };
    for before in 0..n {
        put_device(lines, &mut numbers, device_at(before + 1))?;
    }
    Ok(())
}

/// The statements of these lines, which are numbered from 1.
fn numbered<'a>(alloc: Global, lines: List<What<'a>>) -> Result<List<Statement<'a>>, NoMemory>
    requires { length lines < 2 ^ 32 }
    ensures { IfOk result (λ statements. statements ≡ numbered_from 1 lines.entry) }
{
    let mut statements = List::new(alloc);
    let mut line = 0;
    for what in lines.into_vec() {
        line += 1;
        statements.push(Statement { line, what })?;
    }
    Ok(statements)
}

/// The project of n devices that a number makes; n is at most 254. The statements borrow the names of the groups.
pub fn project_from<'a>(
    alloc: Global,
    names: &'a GroupNames,
    n: u16,
    start: u64,
) -> Result<Project<'a>, NoMemory>
    requires { n ≤ 254 }
    ensures { IfOk result (λ project. project.statements ≡ generated n start) }
{
    let mut lines = List::new(alloc);
    put_groups(&mut lines, names)?;
    put_devices(&mut lines, n, start)?;
    let statements = numbered(alloc, lines)?;
    Ok(Project { statements })
}
