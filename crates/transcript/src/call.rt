//! One call of `knx` over files in memory, and over a link and a port of fixed data.

use crate::fault::Fault;
use crate::outside::{Outside, put_back};
use crate::text::TextFile;
use knx_model::{MemoryFile, MemoryFiles, MemorySink, NoMemory};
use knx_top::{AddressBus, SimBus, knx};
use line_fixed::{FixedDialer, FixedWatcher};
use line_model::Open;
use std::alloc::Global;
use std::sync::Wait;
use std::thread::Threads;

/// The longest output that is copied, in octets.
const LONGEST_COPIED: usize = 2_000;

/// The checksum of no octets, and the factor of each (FNV-1a, 64 bits).
const CHECKSUM_OF_NONE: u64 = 0xCBF2_9CE4_8422_2325;

const CHECKSUM_FACTOR: u64 = 0x0000_0100_0000_01B3;

fn checksum(octets: &[u8]) -> u64 {
    let mut sum = CHECKSUM_OF_NONE;
    for octet in octets {
        sum = (sum ^ u64::from(*octet)).wrapping_mul(CHECKSUM_FACTOR);
    }
    sum
}

/// The texts as files in memory.
fn files_of(alloc: Global, texts: &[TextFile]) -> Result<MemoryFiles, NoMemory> {
    let mut files = Vec::new(alloc);
    for text in texts {
        files.push(MemoryFile::new(alloc, text.name.as_str(), text.content.as_slice())?)?;
    }
    Ok(MemoryFiles::new(alloc, files))
}

/// Adds what was written, or the length and the checksum of a long output.
fn put_output(alloc: Global, out: &mut String, written: &[u8]) -> Result<(), Fault> {
    match std::str::from_utf8(written) {
        Ok(text) if text.len() <= LONGEST_COPIED => out.push_str(text)?,
        _ => {
            let (len, sum) = (written.len(), checksum(written));
            out.push_str(format!(in alloc; "{len} octets, checksum {sum:016X}\n")?.as_str())?;
        }
    }
    Ok(())
}

/// The exit status of a call with these words.
fn status_of<R: Threads + Wait + Sync>(
    rt: &R,
    alloc: Global,
    words: &[String],
    files: &mut MemoryFiles,
    sink: &mut MemorySink,
    dial: &mut FixedDialer,
) -> u8 {
    let mut sim = SimBus::empty(alloc);
    let mut nobody: Option<FixedWatcher> = None;
    let mut units = AddressBus::empty(alloc);
    let mut last = None;
    knx(
        rt,
        alloc,
        words,
        files,
        sink,
        &mut sim,
        &mut units,
        dial,
        &Open,
        &mut nobody,
        &mut last,
    )
    .number()
}

/// Adds what a call with these words hands back, where it dials or binds, what it writes, and its status.
pub fn put_call<R: Threads + Wait + Sync>(
    rt: &R,
    alloc: Global,
    out: &mut String,
    texts: &[TextFile],
    outside: &Outside,
    line: &str,
) -> Result<(), Fault> {
    let mut words = Vec::new(alloc);
    for word in line.split_whitespace() {
        words.push(String::from_str(alloc, word)?)?;
    }
    let mut files = files_of(alloc, texts)?;
    outside.fail_reads(&mut files)?;
    let mut sink = MemorySink::new(alloc);
    outside.fail_writes(&mut sink)?;
    let mut dial = outside.dialer(alloc)?;
    let status = status_of(
        rt,
        alloc,
        words.as_slice(),
        &mut files,
        &mut sink,
        &mut dial,
    );
    put_back(alloc, out, &dial)?;
    put_output(alloc, out, sink.taken.as_slice())?;
    out.push_str(format!(in alloc; "status {status}\n")?.as_str())?;
    Ok(())
}
