//! Runs of the simulated line. Standard input has a run a line, and standard output tells of each:
//!
//! - `talk N TEXT`: a client connects, sends N datagrams that are no frames, and then talks with the device 1.1.5, which is blank, while the line
//!   follows the script TEXT. Told is what the client got after each of its sendings: `connected`, `refused` with the status, `ack`, `con`, or `con-`
//!   where it is with error, `closed`, and an indication by its TPDU. A script that is refused is told by its line, number and word.
//! - `load DEVICES REQUESTS`: so many requests, T_Connect and T_Disconnect, are put to one device after another, of 1 to 254 blank ones. Told is how many
//!   events there were.
//! - `serve TURNS FAIL LETTERS`: the line is served at a port for so many turns at most. A client sends what the letters say, `c` a connect request, `s` and
//!   `d` a state and a disconnect request of the first channel, and nothing with `-`; the port's call of the number FAIL fails, none where it is 0. Told
//!   is what the port had, each datagram that it was given with the client and the low octet of its service, and how the serving ended.
#![tactic(auto)]

mod client;
mod fault;
mod load;
mod serve;
mod talk;

use crate::fault::Fault;
use crate::load::events_of;
use crate::serve::served_of;
use crate::talk::talk_of;
use std::alloc::Global;
use std::io;

/// The numbers of a `load` line.
fn numbers_in(words: &str) -> Option<(u8, u32)> {
    let (devices, requests) = words.split_once(' ')?;
    Some((devices.parse::<u8>().ok()?, requests.parse::<u32>().ok()?))
}

/// What is told of a `load` line with these words.
fn told_of_load(alloc: Global, words: &str) -> Result<String, Fault> {
    let (devices, requests) = numbers_in(words).ok_or(Fault::Words)?;
    let events = events_of(alloc, devices, requests)?;
    Ok(format!(in alloc; " events {events}")?)
}

/// What is told of a `talk` line with these words.
fn told_of_talk(alloc: Global, words: &str) -> Result<String, Fault> {
    let (count, text) = words.split_once(' ').unwrap_or((words, ""));
    let count = count.parse::<u8>().ok().ok_or(Fault::Words)?;
    talk_of(alloc, count, text)
}

/// What is told of a `serve` line with these words.
fn told_of_serve(alloc: Global, words: &str) -> Result<String, Fault> {
    let (turns, rest) = words.split_once(' ').ok_or(Fault::Words)?;
    let (fail, letters) = rest.split_once(' ').ok_or(Fault::Words)?;
    let turns = turns.parse::<u32>().ok().ok_or(Fault::Words)?;
    let fail = fail.parse::<u64>().ok().ok_or(Fault::Words)?;
    served_of(alloc, turns, fail, letters)
}

/// What is told of a run.
fn told_of(alloc: Global, line: &str) -> Result<String, Fault> {
    let (kind, words) = line.split_once(' ').ok_or(Fault::Words)?;
    match kind {
        "load" => told_of_load(alloc, words),
        "serve" => told_of_serve(alloc, words),
        "talk" => told_of_talk(alloc, words),
        _ => Err(Fault::Words),
    }
}

/// Writes a run and what is told of it.
fn tell(alloc: Global, line: &str, out: &mut String) -> Result<(), Fault> {
    let told = told_of(alloc, line)?;
    out.push_str(line)?;
    out.push(':')?;
    out.push_str(told.as_str())?;
    out.push('\n')?;
    Ok(())
}

/// What is told of all runs.
fn told_of_all(alloc: Global, runs: &str) -> Result<String, Fault> {
    let mut out = String::new(alloc);
    for line in runs.lines() {
        tell(alloc, line, &mut out)?;
    }
    Ok(out)
}

fn main(rt: HostRuntime) -> Result<(), Fault> {
    let alloc = rt.alloc();
    let runs = io::read_to_string(alloc, rt.stdin())?;
    let told = told_of_all(alloc, runs.as_str())?;
    rt.print(told.as_str())?;
    Ok(())
}
