//! A transcript of calls. Standard input has texts and calls of `knx`; standard output has each call, what it writes, and its status.
//! The calls read files in memory, which the input states:
//!
//! - `file NAME` begins a file, whose lines follow up to a line `end`. In it a line `* N TEXT` stands for N lines: `{n}` in TEXT is the
//!   line's number from 1 on, `{ga}` the group address of that raw value, `{ia}` the individual address of that device part on line 1.1.
//! - `$ WORDS` is a call with these words. An output of more than 2,000 octets is told by its length and its checksum (FNV-1a, 64 bits).
//! - `> TEXT` is the call that `with WORDS` named last, where the file `s` has just this text, with `\n`, `\r`, `\t`, `\\` and `\xHH`.
//! - `port WORDS` is the port that the next call of either kind can bind: a word in hexadecimal is a datagram that comes from client 0, one with
//!   `N:` before it from client N, in order, before quiet waits; `fail:N` lets its N-th call fail. What it was given is told before what the
//!   call writes, as `gave CLIENT HEX`. Without the line no port can be bound.
//! - `link WORDS` is the link that the next call can dial: `first:` and hexadecimal is a datagram that it gives, in order, and a word in
//!   hexadecimal one that it gives for ever then, before quiet waits where there is none; `fail:N` lets its N-th call fail, and `lasts:N` says how
//!   many milliseconds its polls last, in turn, the others as long as they should. Where it is handed back, `link back` is told. Without the line
//!   no gateway can be dialled.
//! - `failing reads N ..` and `failing writes N ..` let the next call's reads of files and its writes with these numbers fail.
//! - Every other line is copied.
#![tactic(auto)]

mod call;
mod fault;
mod outside;
mod text;

use crate::call::put_call;
use crate::fault::Fault;
use crate::outside::Outside;
use crate::text::{TextFile, unescaped};
use std::alloc::Global;
use std::sync::Wait;
use std::thread::Threads;
use std::{io, mem};

/// The file that a `>` line states.
const STATED: &str = "s";

/// What was read so far: the files that ended, the one that is open, the words of the `>` lines, what the next call meets
/// outside, and the transcript.
#[derive(Drop)]
struct Transcript {
    files: Vec<TextFile>,
    open: Option<TextFile>,
    words: String,
    outside: Outside,
    out: String,
}

impl Transcript {
    fn new(alloc: Global) -> Transcript {
        Transcript {
            files: Vec::new(alloc),
            open: None,
            words: String::new(alloc),
            outside: Outside::new(alloc),
            out: String::new(alloc),
        }
    }

    /// The file takes the place of an earlier one of its name.
    fn put_file(&mut self, file: TextFile) -> Result<(), Fault> {
        self.files
            .retain(|other| other.name.as_str() != file.name.as_str());
        self.files.push(file)?;
        Ok(())
    }

    fn put_line(&mut self, line: &str) -> Result<(), Fault> {
        self.out.push_str(line)?;
        self.out.push('\n')?;
        Ok(())
    }

    /// A line of a file.
    fn add_to(&mut self, alloc: Global, mut file: TextFile, line: &str) -> Result<(), Fault> {
        if line == "end" {
            self.put_file(file)
        } else {
            file.put(alloc, line)?;
            self.open = Some(file);
            Ok(())
        }
    }

    /// A call with these words.
    fn call<R: Threads + Wait + Sync>(
        &mut self,
        rt: &R,
        alloc: Global,
        words: &str,
    ) -> Result<(), Fault> {
        let outside = mem::replace(&mut self.outside, Outside::new(alloc));
        put_call(
            rt,
            alloc,
            &mut self.out,
            self.files.as_slice(),
            &outside,
            words,
        )
    }

    /// A line outside of all files.
    fn follow<R: Threads + Wait + Sync>(
        &mut self,
        rt: &R,
        alloc: Global,
        line: &str,
    ) -> Result<(), Fault> {
        if let Some(name) = line.strip_prefix("file ") {
            self.open = Some(TextFile::new(alloc, name)?);
            return Ok(());
        }
        self.put_line(line)?;
        if let Some(words) = line.strip_prefix("$ ") {
            self.call(rt, alloc, words)?;
        } else if let Some(words) = line.strip_prefix("with ") {
            self.words = String::from_str(alloc, words)?;
        } else if let Some(text) = line.strip_prefix("> ") {
            let content = unescaped(alloc, text)?;
            let name = String::from_str(alloc, STATED)?;
            self.put_file(TextFile { name, content })?;
            let words = String::from_str(alloc, self.words.as_str())?;
            self.call(rt, alloc, words.as_str())?;
        } else {
            self.outside.take_in(alloc, line)?;
        }
        Ok(())
    }

    fn read<R: Threads + Wait + Sync>(
        &mut self,
        rt: &R,
        alloc: Global,
        line: &str,
    ) -> Result<(), Fault> {
        match self.open.take() {
            Some(file) => self.add_to(alloc, file, line),
            None => self.follow(rt, alloc, line),
        }
    }
}

fn main(rt: HostRuntime) -> Result<(), Fault> {
    let alloc = rt.alloc();
    let input = io::read_to_string(alloc, rt.stdin())?;
    let mut transcript = Transcript::new(alloc);
    for line in input.lines() {
        transcript.read(&rt, alloc, line)?;
    }
    rt.print(transcript.out.as_str())?;
    Ok(())
}
