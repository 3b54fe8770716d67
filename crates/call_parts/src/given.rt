//! How giving an address ends, and what is written of that.

ghost use Rattle.std.specs.Prelude.{◌≡◌, ◌++◌, IfOk, OnOk};
ghost use Rattle.std.specs.List.{flat_map, enumerate_from};
ghost use Rattle.call_parts.specs.Given.{EndsAs, assign_status, assign_text, assigned_line, assigned_status, came_line, came_status, failed_line, failed_status, unit_line, unit_lines};

use address_commission::{AssignFault, Assigned};
use address_sim::Unit;
use call_words::Status;
use knx_model::{IndAddr, List, NoMemory, Octets, put_device_word, put_number_word};
use line_model::HubFault;
use report_text::{NO_MEMORY, put_fault};
use std::alloc::Global;

/// What came of giving an address.
#[derive(Drop)]
pub struct Given {
    pub wanted: IndAddr,
    pub came: Result<Assigned, AssignFault>,
    /// The units of the simulated bus, as they are then; none of a dialled one.
    pub units: List<Unit>,
}

/// How giving an address ends.
#[derive(Drop)]
pub enum AssignEnd {
    /// It is over, and this came of it.
    Over(Given),
    /// There was no memory to tell it.
    Untold(NoMemory),
}

impl AssignEnd {
    /// The end where this came of it.
    pub fn of(wanted: IndAddr, came: Result<Assigned, AssignFault>, units: List<Unit>) -> AssignEnd
        ensures { EndsAs wanted units came result }
    {
        AssignEnd::Over(Given {
            wanted,
            came,
            units,
        })
    }
}

/// Appends a line of two individual addresses behind a word.
fn put_several(
    alloc: Global,
    out: &mut Octets,
    first: IndAddr,
    second: IndAddr,
) -> Result<(), NoMemory>
    ensures { OnOk result (out.new ≡ out.old ++ assigned_line first (Assigned.Several first second)) }
{
    out.append(b"several")?;
    put_device_word(alloc, out, first)?;
    put_device_word(alloc, out, second)?;
    out.push(b'\n')
}

/// Appends the line of what came of giving an address.
fn put_assigned(
    alloc: Global,
    out: &mut Octets,
    wanted: IndAddr,
    assigned: Assigned,
) -> Result<(), NoMemory>
    ensures { OnOk result (out.new ≡ out.old ++ assigned_line wanted assigned) }
{
    match assigned {
        Assigned::Done => {
            out.append(b"assigned")?;
            put_device_word(alloc, out, wanted)?;
            out.push(b'\n')
        }
        Assigned::NoUnit => out.append(b"no unit\n"),
        Assigned::Several { first, second } => put_several(alloc, out, first, second),
        Assigned::Taken => {
            out.append(b"taken")?;
            put_device_word(alloc, out, wanted)?;
            out.push(b'\n')
        }
        Assigned::Unconfirmed => out.append(b"unconfirmed\n"),
    }
}

/// Appends the line of a fault.
fn put_failed(alloc: Global, out: &mut Octets, fault: AssignFault) -> Result<(), NoMemory>
    ensures { OnOk result (out.new ≡ out.old ++ failed_line fault) }
{
    let fault = match fault {
        AssignFault::TunnelLost => return out.append(b"tunnel lost\n"),
        AssignFault::LinkFailed => HubFault::LinkFailed,
        AssignFault::GatewayRefused(tries) => HubFault::GatewayRefused(tries),
        AssignFault::Flooded => HubFault::Flooded,
        AssignFault::NoMemory(want) => HubFault::NoMemory(want),
    };
    put_fault(alloc, out, &Some(fault))
}

/// Appends the line of what came of it.
fn put_came(
    alloc: Global,
    out: &mut Octets,
    wanted: IndAddr,
    came: Result<Assigned, AssignFault>,
) -> Result<(), NoMemory>
    ensures { OnOk result (out.new ≡ out.old ++ came_line wanted came) }
{
    match came {
        Ok(assigned) => put_assigned(alloc, out, wanted, assigned),
        Err(fault) => put_failed(alloc, out, fault),
    }
}

/// Appends the line of a unit.
fn put_unit(alloc: Global, out: &mut Octets, number: u64, unit: Unit) -> Result<(), NoMemory>
    ensures { OnOk result (out.new ≡ out.old ++ unit_line number unit) }
{
    out.append(b"unit")?;
    put_number_word(alloc, out, number)?;
    put_device_word(alloc, out, unit.address)?;
    out.push(b'\n')
}

/// Appends the lines of the units.
fn put_units(alloc: Global, out: &mut Octets, units: &[Unit]) -> Result<(), NoMemory>
    ensures { OnOk result (out.new ≡ out.old ++ unit_lines units.now) }
{
    for (place, unit) in units.iter().enumerate() {
        put_unit(alloc, out, place as u64 + 1, *unit)?;
    }
    Ok(())
}

/// What is printed where it is over.
fn given_text(alloc: Global, given: &Given) -> Result<Octets, NoMemory>
    ensures { IfOk result (λ text. text ≡ assign_text (AssignEnd.Over given.now)) }
{
    let mut out = Octets::new(alloc);
    put_came(alloc, &mut out, given.wanted, given.came)?;
    put_units(alloc, &mut out, given.units.as_slice())?;
    Ok(out)
}

/// What is printed of it.
pub fn assign_text(alloc: Global, end: &AssignEnd) -> Result<Octets, NoMemory>
    ensures { IfOk result (λ text. text ≡ assign_text end.now) }
{
    match end {
        AssignEnd::Over(given) => given_text(alloc, given),
        AssignEnd::Untold(_) => Octets::from_slice(alloc, NO_MEMORY),
    }
}

fn assigned_status(assigned: Assigned) -> Status
    ensures { result ≡ assigned_status assigned }
{
    match assigned {
        Assigned::Done => Status::Done,
        Assigned::NoUnit => Status::NoUnit,
        Assigned::Several { .. } => Status::Several,
        Assigned::Taken => Status::Taken,
        Assigned::Unconfirmed => Status::Unconfirmed,
    }
}

fn failed_status(fault: AssignFault) -> Status
    ensures { result ≡ failed_status fault }
{
    match fault {
        AssignFault::TunnelLost => Status::TunnelLost,
        AssignFault::LinkFailed => Status::Link,
        AssignFault::GatewayRefused(_) => Status::GatewayRefused,
        AssignFault::Flooded => Status::Flooded,
        AssignFault::NoMemory(want) => Status::NoMemory(want),
    }
}

/// The status that goes with it.
pub fn assign_status(end: &AssignEnd) -> Status
    ensures { result ≡ assign_status end.now }
{
    match end {
        AssignEnd::Over(given) => match given.came {
            Ok(assigned) => assigned_status(assigned),
            Err(fault) => failed_status(fault),
        },
        AssignEnd::Untold(want) => Status::NoMemory(*want),
    }
}
