//! Words and lines that the reports share.

ghost use Rattle.std.specs.Prelude.{◌≡◌, ◌++◌, ◌∷◌, [], codes, map, OnOk};
ghost use Rattle.std.specs.List.{join_with_byte};
ghost use Rattle.std.specs.Fmt.{decimal};
ghost use Rattle.knx_model.specs.Addresses.{device_text};
ghost use Rattle.call_words.specs.ReportText.{sign_word, job_word, case_word};
ghost use Rattle.knx_model.specs.TextLines.{line};
ghost use Rattle.report_text.specs.Behind.{behind};

use call_words::{Case, JobKind, JobWord};
use knx_model::{NoMemory, Octets, Sign, put_device_word, put_number_word, put_word};
use std::alloc::Global;

fn sign_word(sign: Sign) -> &'static str
    ensures { result.now ≡ sign_word sign }
{
    match sign {
        Sign::Silent { .. } => "silent",
        Sign::Closed => "closed",
        Sign::NoCon => "nocon",
        Sign::TunnelLost => "tunnel",
    }
}

/// Appends the words of three signs.
pub fn put_signs(out: &mut Octets, signs: [Sign; 3]) -> Result<(), NoMemory>
    ensures { OnOk result (out.new ≡ out.old ++ behind (map sign_word signs)) }
{
    let [first, second, third] = signs;
    put_word(out, sign_word(first).as_bytes())?;
    put_word(out, sign_word(second).as_bytes())?;
    put_word(out, sign_word(third).as_bytes())
}

fn job_word(kind: JobKind) -> &'static str
    ensures { result.now ≡ job_word kind }
{
    match kind {
        JobKind::Load => "load",
        JobKind::Check => "check",
    }
}

/// Appends the words of a job before its end.
pub fn put_job_words(
    alloc: Global,
    out: &mut Octets,
    number: u64,
    job: JobWord,
) -> Result<(), NoMemory>
    ensures { OnOk result (out.new ≡ out.old ++ join_with_byte 32 (codes "job" ∷ decimal number ∷ job_word job.kind ∷ device_text job.device ∷ [])) }
{
    out.append(b"job")?;
    put_number_word(alloc, out, number)?;
    put_word(out, job_word(job.kind).as_bytes())?;
    put_device_word(alloc, out, job.device)
}

pub fn case_word(case: Case) -> &'static str
    ensures { result.now ≡ case_word case }
{
    match case {
        Case::New => "new",
        Case::Old => "old",
        Case::Stopped => "stopped",
    }
}

/// Appends a line of a word and a count.
pub fn put_count(alloc: Global, out: &mut Octets, word: &str, count: u64) -> Result<(), NoMemory>
    ensures { OnOk result (out.new ≡ out.old ++ line (word.now ∷ decimal count ∷ [])) }
{
    out.append(word.as_bytes())?;
    put_number_word(alloc, out, count)?;
    out.push(b'\n')
}
