//! The lines of the jobs.

ghost use Rattle.std.specs.Prelude.{◌≡◌, ◌+◌, ◌++◌, ◌∷◌, [], codes, is_some, OnOk, IfOk};
ghost use Rattle.std.specs.List.{filter_map, flat_map, enumerate_from, join_with_byte};
ghost use Rattle.std.specs.Fmt.{decimal};
ghost use Rattle.call_words.specs.ReportText.{first_or_open};
ghost use Rattle.knx_model.specs.TextLines.{octets_text};
ghost use Rattle.call_words.specs.Printed.{end_of, job_line};
ghost use Rattle.report_text.specs.Behind.{behind, behind_if};

use crate::pieces::put_hex;
use crate::words::{put_job_words, put_signs};
use call_words::JobWord;
use knx_model::{NoMemory, Octets, put_number_word};
use line_model::{LogEntry, LogWhat};
use std::alloc::Global;

/// Appends the words of a refused job: the operation, what was got, and what was expected.
fn put_refused(
    alloc: Global,
    out: &mut Octets,
    op: u32,
    got: &[u8],
    expected: &[u8],
) -> Result<(), NoMemory>
    ensures { OnOk result (out.new ≡ out.old ++ behind (codes "refused" ∷ decimal op ∷ codes "got" ∷ octets_text got.now ∷ codes "expected" ∷ octets_text expected.now ∷ [])) }
{
    out.append(b" refused")?;
    put_number_word(alloc, out, u64::from(op))?;
    out.append(b" got ")?;
    put_hex(out, got)?;
    out.append(b" expected ")?;
    put_hex(out, expected)
}

/// Appends how an entry ends the job. Tells whether it does.
fn put_end_by(alloc: Global, out: &mut Octets, job: u64, what: &LogWhat) -> Result<bool, NoMemory>
    ensures told { IfOk result (λ ends. ends ≡ is_some (end_of job what.now)) }
    ensures text { OnOk result (out.new ≡ out.old ++ behind_if (end_of job what.now)) }
{
    match what {
        LogWhat::Done(ended) if u64::from(*ended) == job => out.append(b" done")?,
        LogWhat::Failed(ended, signs) if u64::from(*ended) == job => {
            out.append(b" failed")?;
            put_signs(out, *signs)?;
        }
        LogWhat::Refused {
            job: ended,
            op,
            got,
            expected,
        } if u64::from(*ended) == job => {
            put_refused(alloc, out, *op, got.as_slice(), expected.as_slice())?;
        }
        _ => return Ok(false),
    }
    Ok(true)
}

/// Appends how a job ends by the log.
fn put_end(alloc: Global, out: &mut Octets, log: &[LogEntry], job: u64) -> Result<(), NoMemory>
    ensures { OnOk result (out.new ≡ out.old ++ behind (first_or_open (filter_map (λ entry. end_of job entry.what) log.now))) }
{
    for entry in log {
        if put_end_by(alloc, out, job, &entry.what)? {
            return Ok(());
        }
    }
    out.append(b" open")
}

/// Appends the line of a job: its number, what it does to which device, and its end by the log.
fn put_job(
    alloc: Global,
    out: &mut Octets,
    log: &[LogEntry],
    number: u64,
    job: JobWord,
) -> Result<(), NoMemory>
    ensures { OnOk result (out.new ≡ out.old ++ job_line log.now number job) }
{
    put_job_words(alloc, out, number, job)?;
    put_end(alloc, out, log, number)?;
    out.push(b'\n')
}

/// Appends the lines of the jobs.
pub fn put_jobs(
    alloc: Global,
    out: &mut Octets,
    log: &[LogEntry],
    jobs: &[JobWord],
) -> Result<(), NoMemory>
    ensures { OnOk result (out.new ≡ out.old ++ flat_map (λ p. job_line log.now p.0 p.1) (enumerate_from 1 jobs.now)) }
{
    for (place, job) in jobs.iter().enumerate() {
        put_job(alloc, out, log, place as u64 + 1, *job)?;
    }
    Ok(())
}
