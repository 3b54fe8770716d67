//! `sim NEW OLD SCRIPT [catalogue=F] [log] [quiet] [workers=N]` and jobs: a run over the simulated line.

ghost use Rattle.std.specs.Prelude.{◌≡◌, ◌≤◌, ◌+◌, ℕ, List, Some, length, map, string_bytes};
ghost use Rattle.std.specs.Option.{option_map};
ghost use Rattle.call_parts.specs.Ending.{Is, Replies, report_in};
ghost use Rattle.call_parts.specs.Input.{OnlyRose};
ghost use Rattle.knx_top.specs.Ran.{FaultsOfLine, Left};
ghost use Rattle.knx_top.specs.commands.{Sim as AskedSim};
ghost use Rattle.knx_top.specs.Watched.{TellsOfRun, WhereRun};
ghost use Rattle.line_model.specs.Watched.{watch_in};
ghost use Rattle.knx_top.specs.commands.sim.{RunsScript, SimIsRead, SimWords, commission_told, failed_of_sim, files_of_sim, sim_words, sim_words_of};
ghost use Rattle.bus_sim.specs.Loaded.{BusNow};
ghost use Rattle.knx_model.specs.Outside.{FilesNow, SinkNow};
ghost use Rattle.knx_top.specs.Complete.{IsRunServed, IsRunTold, IsValidRun, IsWithinBounds, NoneRose, NothingDisturbs, sim_texts_told};
ghost use Rattle.call_parts.specs.declared.ending.End.TheVariants.{Reports};
ghost use Rattle.call_words.specs.declared.status.Status.{Status};

pub mod judge;
pub mod run;

use crate::commands::sim::run::commission;
use bus_sim::SimBus;
use call_parts::{End, Reading, SimOptions, read_after, read_named, sim_options};
use knx_model::Files;
use line_model::{Gate, Watcher};
use std::alloc::Global;
use std::sync::Wait;
use std::thread::Threads;

/// The names in `NEW OLD SCRIPT`, with options and jobs.
#[derive(Drop)]
pub struct SimNames<'a> {
    pub new: &'a str,
    pub old: &'a str,
    pub script: &'a str,
    pub options: SimOptions<'a>,
}

/// The texts of `sim`.
#[derive(Drop)]
pub struct SimTexts {
    pub catalogue: Reading,
    pub new: Reading,
    pub old: Reading,
    pub script: Reading,
}

/// The names of `sim`.
pub fn sim_names(words: &[String]) -> Option<SimNames<'_>>
    ensures { option_map sim_words_of result ≡ sim_words (map string_bytes words.now) }
{
    let [new, old, script, others @ ..] = words else {
        return None;
    };
    let options = sim_options(others)?;
    Some(SimNames {
        new: new.as_str(),
        old: old.as_str(),
        script: script.as_str(),
        options,
    })
}

/// Reads the catalogue, then NEW, OLD and the script.
fn read_sim_texts<F: Files>(alloc: Global, files: &mut F, names: &SimNames<'_>) -> SimTexts
    ensures read { SimIsRead (F.now files.old).file (sim_words_of names.now) result }
    ensures counts { OnlyRose (failed_of_sim (sim_words_of names.now) result) (F.now files.old).faults (F.now files.new).faults }
    ensures stays { (other : List ℕ) → (F.now files.new).file other ≡ (F.now files.old).file other }
    ensures reads { (F.now files.new).reads ≤ (F.now files.old).reads + length (files_of_sim (sim_words_of names.now)) }
{
    let catalogue = read_named(alloc, files, names.options.catalogue());
    let new = read_after(alloc, files, &catalogue, names.new);
    let old = read_after(alloc, files, &new, names.old);
    let script = read_after(alloc, files, &old, names.script);
    SimTexts {
        catalogue,
        new,
        old,
        script,
    }
}

/// A call of `sim`.
pub fn call<R: Threads + Wait + Sync, F: Files, G: Gate + Sync, W: Watcher + Send>(
    rt: &R,
    alloc: Global,
    names: &SimNames<'_>,
    files: &mut F,
    sim: &mut SimBus,
    gate: &G,
    watch: &mut Option<W>,
) -> End
    ensures told { RunsScript (sim_words_of names.now) (F.now files.old) (F.now files.new) sim.old (record { line = sim.new; report = report_in result }) (Is result) }
    ensures link { FaultsOfLine (report_in result) sim.new }
    ensures watched { WhereRun (TellsOfRun (Some (AskedSim (sim_words_of names.now))) (F.now files.old).file) (report_in result) (watch_in W.watch watch.old) (watch_in W.watch watch.new) }
    ensures stays { (other : List ℕ) → (F.now files.new).file other ≡ (F.now files.old).file other }
    ensures reads { (F.now files.new).reads ≤ (F.now files.old).reads + length (files_of_sim (sim_words_of names.now)) }
{
    let texts = read_sim_texts(alloc, files, names);
    commission(rt, alloc, names, &texts, sim, gate, watch)
}

/// Where the files of the words are told, no test fails and no count rose, what is asked for is run, and the whole report is written with its status, or there was no
/// memory.
pub fn valid_input_is_told()
    ensures { (words : SimWords) (files files' : FilesNow) (before : BusNow) (after : Left) (out out' : SinkNow) (ending : Status) → IsValidRun files.file words → NoneRose files files' out out' → RunsScript words files files' before after (Replies out out' ending)
        → IsRunTold (λ told. Reports told) (commission_told words (sim_texts_told files.file words)) after out out' ending }
{}

/// Where besides no line of the script disturbs, the device of each job is on the line, and the run isn't as long as 64 bits can tell nor, where a
/// group telegram asks for values, flooded, all is served: each load is told done, each check done or refused as its device is, and each group telegram sent; the whole report is written, and the
/// status is 0 or 1; or there was no memory.
pub fn valid_input_is_served()
    ensures { (words : SimWords) (files files' : FilesNow) (before : BusNow) (after : Left) (out out' : SinkNow) (ending : Status) → IsValidRun files.file words → NothingDisturbs (commission_told words (sim_texts_told files.file words)) → NoneRose files files' out out'
        → IsWithinBounds (commission_told words (sim_texts_told files.file words)).turns after.line.run
        → RunsScript words files files' before after (Replies out out' ending) → IsRunServed (commission_told words (sim_texts_told files.file words)) after out out' ending }
{}
