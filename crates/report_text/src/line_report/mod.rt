//! The report of a run over the line.

mod device;
mod fault;
mod job;
mod log;
mod sums;
mod telegram;

ghost use Rattle.std.specs.Prelude.{◌≡◌, ◌++◌, OnOk, IfOk, if◌then◌else◌, []};
ghost use Rattle.call_words.specs.Printed.{is_told_alone, run_lines, line_report_text};

use self::device::put_devices;
use self::fault::is_told_alone;
use self::job::put_jobs;
use self::log::put_log;
use self::telegram::{put_all_heard, put_turns};
use crate::words::put_count;
use call_words::JobWord;
pub use device::DeviceShown;
pub use fault::{line_status, put_fault};
use knx_model::{NoMemory, Octets};
use line_model::Report;
use std::alloc::Global;
pub use sums::sums_text;

/// Appends all lines but that of the fault, where the fault isn't told alone.
fn put_run(
    alloc: Global,
    out: &mut Octets,
    report: &Report,
    jobs: &[JobWord],
    groups: u32,
    devices: &[DeviceShown],
    with_log: bool,
) -> Result<(), NoMemory>
    ensures { OnOk result (out.new ≡ out.old ++ (if is_told_alone report.now.fault then [] else run_lines report.now jobs.now groups devices.now with_log)) }
{
    if is_told_alone(&report.fault) {
        return Ok(());
    }
    put_jobs(alloc, out, report.log.as_slice(), jobs)?;
    put_turns(alloc, out, report.log.as_slice(), groups)?;
    put_all_heard(alloc, out, report.heard.as_slice())?;
    put_devices(alloc, out, devices)?;
    put_count(alloc, out, "missed", report.missed)?;
    put_log(alloc, out, report, with_log)
}

/// The report of a run over the line: a line for each job, each group telegram, each one that was heard and each device, the count of those that are
/// left out, the log where it is asked for, and why the run ended without its end. Want of memory, and a job elsewhere, are told alone.
#[tactic(auto, unfolding(call_words::specs::Printed::line_report_text))]
pub fn line_report_of(
    alloc: Global,
    report: &Report,
    jobs: &[JobWord],
    groups: u32,
    devices: &[DeviceShown],
    with_log: bool,
) -> Result<Octets, NoMemory>
    ensures { IfOk result (λ text. text ≡ line_report_text report.now jobs.now groups devices.now with_log) }
{
    let mut out = Octets::new(alloc);
    put_run(alloc, &mut out, report, jobs, groups, devices, with_log)?;
    put_fault(alloc, &mut out, &report.fault)?;
    Ok(out)
}
