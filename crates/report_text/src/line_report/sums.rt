//! The sums of a run over a line that a number makes: its project's counts, how many jobs are done, and how many devices are new.

ghost use Rattle.std.specs.Prelude.{◌≡◌, ◌++◌, OnOk, IfOk, if◌then◌else◌, []};
ghost use Rattle.call_words.specs.Printed.{is_told_alone};
ghost use Rattle.call_words.specs.Sums.{done_in, is_new, new_among, sums_line, sums_text, tells_done};

use crate::line_report::device::DeviceShown;
use crate::line_report::fault::{is_told_alone, put_fault};
use crate::project::put_counts;
use call_words::Case;
use knx_model::{Counts, NoMemory, Octets, put_number_word};
use line_model::{LogEntry, LogWhat, Report};
use std::alloc::Global;

/// Whether an entry tells that a job is done.
fn tells_done(what: &LogWhat) -> bool
    ensures { result ≡ tells_done what.now }
{
    matches!(what, LogWhat::Done(_))
}

fn done_in(log: &[LogEntry]) -> usize
    ensures { result ≡ done_in log.now }
{
    log.iter().filter(|entry| tells_done(&entry.what)).count()
}

/// Whether a device is shown as new.
fn is_new(shown: &DeviceShown) -> bool
    ensures { result ≡ is_new shown.now.case }
{
    matches!(shown.case, Case::New)
}

fn new_among(devices: &[DeviceShown]) -> usize
    ensures { result ≡ new_among devices.now }
{
    devices.iter().filter(|shown| is_new(shown)).count()
}

/// Appends the line `devices N objects N links N done N new N`.
fn put_line(
    alloc: Global,
    out: &mut Octets,
    counts: Counts,
    done: usize,
    new: usize,
) -> Result<(), NoMemory>
    ensures { OnOk result (out.new ≡ out.old ++ sums_line counts done new) }
{
    put_counts(alloc, out, counts)?;
    out.append(b" done")?;
    put_number_word(alloc, out, done as u64)?;
    out.append(b" new")?;
    put_number_word(alloc, out, new as u64)?;
    out.push(b'\n')
}

/// Appends the line of the sums, where the fault isn't told alone.
fn put_sums(
    alloc: Global,
    out: &mut Octets,
    report: &Report,
    counts: Counts,
    devices: &[DeviceShown],
) -> Result<(), NoMemory>
    ensures { OnOk result (out.new ≡ out.old ++ (if is_told_alone report.now.fault then [] else sums_line counts (done_in report.now.log) (new_among devices.now))) }
{
    if is_told_alone(&report.fault) {
        return Ok(());
    }
    let done = done_in(report.log.as_slice());
    put_line(alloc, out, counts, done, new_among(devices))
}

/// The sums of a run over a line that a number makes, as the line `devices N objects N links N done N new N`: the counts of its project, how many
/// entries of its log tell that a job is done, and how many of these devices are new; and why the run ended without its end. Want of memory, and a
/// job elsewhere, are told alone.
#[tactic(auto, unfolding(call_words::specs::Sums::sums_text))]
pub fn sums_text(
    alloc: Global,
    report: &Report,
    counts: Counts,
    devices: &[DeviceShown],
) -> Result<Octets, NoMemory>
    ensures { IfOk result (λ text. text ≡ sums_text report.now counts devices.now) }
{
    let mut out = Octets::new(alloc);
    put_sums(alloc, &mut out, report, counts, devices)?;
    put_fault(alloc, &mut out, &report.fault)?;
    Ok(out)
}
