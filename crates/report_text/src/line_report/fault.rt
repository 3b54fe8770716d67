//! Why a run over the line ended without its end: its line, and the status.

ghost use Rattle.std.specs.Prelude.{◌≡◌, ◌++◌, ◌∷◌, OnOk};
ghost use Rattle.std.specs.List.{join_with_byte};
ghost use Rattle.call_words.specs.Printed.{try_word, fault_words, fault_line, is_told_alone};
ghost use Rattle.report_text.specs.LineStatus.{is_failure, has_failure, fault_status, line_status};

use crate::pieces::put_digits;
use call_words::Status;
use knx_model::{NoMemory, Octets, put_device_word, put_word};
use line_model::{HubFault, LogEntry, LogWhat, Report, Try};
use std::alloc::Global;

/// Whether nothing else is told.
pub fn is_told_alone(fault: &Option<HubFault>) -> bool
    ensures { result ≡ is_told_alone fault.now }
{
    match fault {
        Some(HubFault::NoMemory(_) | HubFault::WrongLine { .. }) => true,
        Some(HubFault::LinkFailed | HubFault::GatewayRefused(_) | HubFault::Flooded) | None => {
            false
        }
    }
}

/// Appends how a try to get a channel failed: a status in two digits, or `-` for a wait.
fn put_try(out: &mut Octets, failed: Try) -> Result<(), NoMemory>
    ensures { OnOk result (out.new ≡ out.old ++ 32 ∷ try_word failed) }
{
    match failed {
        Try::Status(status) => {
            out.push(b' ')?;
            put_digits(out, status)
        }
        Try::NoAnswer => put_word(out, b"-"),
    }
}

/// Appends the words of three tries that failed.
fn put_tries(out: &mut Octets, tries: [Try; 3]) -> Result<(), NoMemory>
    ensures { OnOk result (out.new ≡ out.old ++ join_with_byte 32 (fault_words (HubFault.GatewayRefused tries))) }
{
    let [first, second, third] = tries;
    out.append(b"gateway refused")?;
    put_try(out, first)?;
    put_try(out, second)?;
    put_try(out, third)
}

/// Appends the words of a fault.
fn put_fault_words(alloc: Global, out: &mut Octets, fault: &HubFault) -> Result<(), NoMemory>
    ensures { OnOk result (out.new ≡ out.old ++ join_with_byte 32 (fault_words fault.now)) }
{
    match fault {
        HubFault::NoMemory(_) => out.append(b"no memory"),
        HubFault::LinkFailed => out.append(b"link fault"),
        HubFault::GatewayRefused(tries) => put_tries(out, *tries),
        HubFault::Flooded => out.append(b"flooded"),
        HubFault::WrongLine { device, tunnel } => {
            out.append(b"wrong line")?;
            put_device_word(alloc, out, *device)?;
            out.append(b" tunnel")?;
            put_device_word(alloc, out, *tunnel)
        }
    }
}

/// Appends the line of a fault, where there is one.
pub fn put_fault(alloc: Global, out: &mut Octets, fault: &Option<HubFault>) -> Result<(), NoMemory>
    ensures { OnOk result (out.new ≡ out.old ++ fault_line fault.now) }
{
    match fault {
        Some(fault) => {
            put_fault_words(alloc, out, fault)?;
            out.push(b'\n')
        }
        None => Ok(()),
    }
}

/// Whether a job's three attempts ended, or an answer differed.
fn is_failure(what: &LogWhat) -> bool
    ensures { result ≡ is_failure what.now }
{
    matches!(what, LogWhat::Failed(..) | LogWhat::Refused { .. })
}

fn has_failure(log: &[LogEntry]) -> bool
    ensures { result ≡ has_failure log.now }
{
    log.iter().any(|entry| is_failure(&entry.what))
}

fn fault_status(fault: &HubFault) -> Status
    ensures { result ≡ fault_status fault.now }
{
    match fault {
        HubFault::NoMemory(want) => Status::NoMemory(*want),
        HubFault::LinkFailed => Status::Link,
        HubFault::GatewayRefused(_) => Status::GatewayRefused,
        HubFault::Flooded => Status::Flooded,
        HubFault::WrongLine { .. } => Status::WrongLine,
    }
}

/// The status that a run over the line ends with: that of its fault; without one, whether its log holds a job that failed or was refused.
pub fn line_status(report: &Report) -> Status
    ensures { result ≡ line_status report.now }
{
    match &report.fault {
        Some(fault) => fault_status(fault),
        None if has_failure(report.log.as_slice()) => Status::SomeFailed,
        None => Status::Done,
    }
}
