//! The lines of the log.

ghost use Rattle.std.specs.Prelude.{◌≡◌, ◌++◌, ◌∷◌, [], OnOk};
ghost use Rattle.std.specs.Fmt.{decimal};
ghost use Rattle.std.specs.List.{flat_map};
ghost use Rattle.call_words.specs.Printed.{what_words, log_line, log_lines};

use crate::words::put_count;
use knx_model::{NoMemory, Octets, put_number_word, put_word};
use line_model::{LogEntry, LogWhat, Report};
use std::alloc::Global;

/// The word of an entry, and the number of its job or group telegram.
fn words_of(what: &LogWhat) -> (&'static str, u32)
    ensures { what_words what.now ≡ result.0.now ∷ decimal result.1 ∷ [] }
{
    match what {
        LogWhat::Took(job) => ("took", *job),
        LogWhat::Done(job) => ("done", *job),
        LogWhat::Failed(job, _) => ("failed", *job),
        LogWhat::Refused { job, .. } => ("refused", *job),
        LogWhat::Sent(turn) => ("sent", *turn),
        LogWhat::Lost(turn) => ("lost", *turn),
    }
}

/// Appends the line of an entry: its place, its worker, and what it tells.
fn put_entry(alloc: Global, out: &mut Octets, entry: &LogEntry) -> Result<(), NoMemory>
    ensures { OnOk result (out.new ≡ out.old ++ log_line entry.now) }
{
    let (word, number) = words_of(&entry.what);
    out.append(b"log")?;
    put_number_word(alloc, out, entry.at)?;
    put_number_word(alloc, out, u64::from(entry.worker))?;
    put_word(out, word.as_bytes())?;
    put_number_word(alloc, out, u64::from(number))?;
    out.push(b'\n')
}

fn put_entries(alloc: Global, out: &mut Octets, log: &[LogEntry]) -> Result<(), NoMemory>
    ensures { OnOk result (out.new ≡ out.old ++ flat_map log_line log.now) }
{
    for entry in log {
        put_entry(alloc, out, entry)?;
    }
    Ok(())
}

/// Appends the log, where it is asked for, and how many datagrams were dropped.
pub fn put_log(
    alloc: Global,
    out: &mut Octets,
    report: &Report,
    with_log: bool,
) -> Result<(), NoMemory>
    ensures { OnOk result (out.new ≡ out.old ++ log_lines with_log report.now) }
{
    if !with_log {
        return Ok(());
    }
    put_entries(alloc, out, report.log.as_slice())?;
    put_count(alloc, out, "dropped", report.dropped)
}
