//! The commands: each with its words, what it reads, its tests in their order, what it does, and its end; which of them the words ask for, and that one done.

ghost use Rattle.std.specs.Prelude.{◌≡◌, ◌≤◌, ◌+◌, ◌↔◌, ℕ, List, None, Option, Some, false, length, map, string_bytes, true};
ghost use Rattle.std.specs.Option.{option_map};
ghost use Rattle.call_parts.specs.Ending.{Is, report_in};
ghost use Rattle.knx_top.specs.commands.{WordsAsk, Command as Commanded, Does, asked, assign_asked, begins_run, begins_units, command_of, files_of, reaches_network};
ghost use Rattle.knx_top.specs.Watched.{TellsOfRun, WhereRun};
ghost use Rattle.line_model.specs.Watched.{watch_in};

pub mod assign;
pub mod big;
pub mod check;
pub mod decode;
pub mod download;
pub mod find;
pub mod gateway;
pub mod migrate;
pub mod sim;
pub mod tables;

use crate::commands::assign::{AssignNames, AssignSimNames, assign_names, assign_sim_names};
use crate::commands::big::{BigNumbers, big_numbers};
use crate::commands::decode::decode_word;
use crate::commands::download::{DownloadNames, download_names};
use crate::commands::find::{FindNames, find_names};
use crate::commands::gateway::{GatewayNames, gateway_names};
use crate::commands::sim::{SimNames, sim_names};
use address_sim::AddressBus;
use bus_sim::SimBus;
use call_parts::{End, ProjectNames, project_names};
use knx_model::Files;
use line_model::{Dialer, Gate, Watcher};
use std::alloc::Global;
use std::sync::Wait;
use std::thread::Threads;

/// A command with its words.
#[derive(Drop)]
pub enum Command<'a> {
    /// `check P [catalogue=F]`
    Check(ProjectNames<'a>),
    /// `tables P [catalogue=F]`
    Tables(ProjectNames<'a>),
    /// `migrate P [catalogue=F]`
    Migrate(ProjectNames<'a>),
    /// `sim NEW OLD SCRIPT [catalogue=F] [log] [quiet] [workers=N]`, and jobs
    Sim(SimNames<'a>),
    /// `decode HEX`
    Decode(&'a str),
    /// `download ADDR NEW [catalogue=F] [log] [quiet] [workers=N]`, and jobs
    Download(DownloadNames<'a>),
    /// `gateway ADDR OLD SCRIPT turns=N [catalogue=F]`
    Gateway(GatewayNames<'a>),
    /// `find ADDR [describe]`
    Find(FindNames),
    /// `assign ADDR IA`
    Assign(AssignNames),
    /// `assign sim UNITS IA`
    AssignSim(AssignSimNames<'a>),
    /// `big N START`
    Big(BigNumbers),
}

/// The command of the words behind `assign`; none for words that are no command.
fn assign_asked(words: &[String]) -> Option<Command<'_>>
    ensures { option_map command_of result ≡ assign_asked (map string_bytes words.now) }
{
    match words {
        [address, wanted] => {
            let names = assign_names(address.as_str(), wanted.as_str())?;
            Some(Command::Assign(names))
        }
        [sim, units, wanted] if sim.as_str() == "sim" => {
            let names = assign_sim_names(units.as_str(), wanted.as_str())?;
            Some(Command::AssignSim(names))
        }
        _ => None,
    }
}

/// The command of the words; none for words that are no command.
pub fn asked(words: &[String]) -> Option<Command<'_>>
    ensures { option_map command_of result ≡ asked (map string_bytes words.now) }
{
    let [command, others @ ..] = words else {
        return None;
    };
    match command.as_str() {
        "assign" => assign_asked(others),
        "check" => Some(Command::Check(project_names(others)?)),
        "tables" => Some(Command::Tables(project_names(others)?)),
        "migrate" => Some(Command::Migrate(project_names(others)?)),
        "sim" => Some(Command::Sim(sim_names(others)?)),
        "decode" => Some(Command::Decode(decode_word(others)?)),
        "download" => Some(Command::Download(download_names(others)?)),
        "gateway" => Some(Command::Gateway(gateway_names(others)?)),
        "find" => Some(Command::Find(find_names(others)?)),
        "big" => Some(Command::Big(big_numbers(others)?)),
        _ => None,
    }
}

/// Does what a command asks for.
pub fn run<R: Threads + Wait + Sync, F: Files, D: Dialer, G: Gate + Sync, W: Watcher + Send>(
    rt: &R,
    alloc: Global,
    command: Command<'_>,
    files: &mut F,
    sim: &mut SimBus,
    units: &mut AddressBus,
    dial: &mut D,
    gate: &G,
    watch: &mut Option<W>,
) -> End
    ensures does { Does (Some (command_of command.entry)) (record { files = F.now files.old; line = sim.old; units = units.old; dialer = D.now dial.old; report = None }) (record { files = F.now files.new; line = sim.new; units = units.new; dialer = D.now dial.new; report = report_in result }) (Is result) }
    ensures undialled { reaches_network (Some (command_of command.entry)) ≡ false → dial.new ≡ dial.old }
    ensures units { begins_units (Some (command_of command.entry)) ≡ false → units.new ≡ units.old }
    ensures stays { (other : List ℕ) → (F.now files.new).file other ≡ (F.now files.old).file other }
    ensures reads { (F.now files.new).reads ≤ (F.now files.old).reads + length (files_of (Some (command_of command.entry))) }
    ensures unwatched { begins_run (Some (command_of command.entry)) ≡ false → watch.new ≡ watch.old }
    ensures watched { begins_run (Some (command_of command.entry)) ≡ true → WhereRun (TellsOfRun (Some (command_of command.entry)) (F.now files.old).file) (report_in result) (watch_in W.watch watch.old) (watch_in W.watch watch.new) }
{
    match command {
        Command::Check(names) => check::call(rt, alloc, names, files),
        Command::Tables(names) => tables::call(rt, alloc, names, files),
        Command::Migrate(names) => migrate::call(rt, alloc, names, files),
        Command::Sim(names) => sim::call(rt, alloc, &names, files, sim, gate, watch),
        Command::Decode(word) => decode::call(alloc, word),
        Command::Download(names) => { download::call(rt, alloc, &names, files, dial, gate, watch) }
        Command::Gateway(names) => gateway::call(rt, alloc, names, files, sim, dial),
        Command::Find(names) => find::call(alloc, names, dial),
        Command::Assign(names) => assign::call(rt, alloc, names, dial),
        Command::AssignSim(names) => assign::call_sim(rt, alloc, names, files, units),
        Command::Big(numbers) => big::call(rt, alloc, &numbers, sim, gate, watch),
    }
}

/// Words ask for just one thing, which is what is read of them: the command that they spell, or nothing.
pub fn words_ask()
    ensures { (words : List (List ℕ)) (asks : Option Commanded) → WordsAsk words asks ↔ (asked words ≡ asks) }
{}
