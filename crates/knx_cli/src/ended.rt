//! How the program ends.

ghost use Rattle.std.specs.Prelude.{◌≡◌, ◌≤◌, ◌+◌, ℕ, IfErr, IfOk, List, None, Option, false, length, map, string_bytes};
ghost use Rattle.call_words.specs.declared.stop.Stop.TheVariants.{NoMemory as Wanting};
ghost use Rattle.knx_model.specs.Outside.{one_more};
ghost use Rattle.call_words.specs.Statuses.{status_number};
ghost use Rattle.call_parts.specs.declared.ending.End.TheVariants.{Stops};
ghost use Rattle.knx_top.specs.commands.{WordsAsk, Command, Does, begins_units, files_of, reaches_network};
ghost use Rattle.call_parts.specs.Ending.{Replies};
ghost use Rattle.knx_top.specs.Watched.{TellsOfRun, WhereRun};
ghost use Rattle.line_model.specs.Watched.{watch_in};
ghost use Rattle.knx_cli.specs.Exit.{status_of};

use call_words::Status;
use knx_model::{Files, NoMemory, Sink};
use knx_top::{AddressBus, NO_MEMORY, Report, SimBus, knx};
use line_model::{Dialer, Gate, Watcher};
use std::alloc::Global;
use std::sync::Wait;
use std::thread::Threads;

/// The exit status where memory is wanting for the words.
fn without_words<K: Sink>(want: NoMemory, out: &mut K) -> u8
    ensures numbered { result ≡ status_number (status_of result) }
    ensures told { Replies (K.now out.old) (K.now out.new) (status_of result) (Stops (Wanting tt)) }
    ensures written { (K.now out.new).writes ≡ one_more (K.now out.old).writes }
{
    match out.write(NO_MEMORY) {
        Ok(()) => Status::NoMemory(want).number(),
        Err(_) => Status::Write.number(),
    }
}

/// The exit status of the program: that of the call with its words, or where memory is wanting for them, that.
pub fn status_of<
    R: Threads + Wait + Sync,
    F: Files,
    K: Sink,
    D: Dialer,
    G: Gate + Sync,
    W: Watcher + Send,
>(
    rt: &R,
    alloc: Global,
    words: &Result<Vec<String>, NoMemory>,
    files: &mut F,
    out: &mut K,
    sim: &mut SimBus,
    units: &mut AddressBus,
    dial: &mut D,
    gate: &G,
    watch: &mut Option<W>,
    last: &mut Option<Report>,
) -> u8
    ensures numbered { result ≡ status_number (status_of result) }
    // what the words ask for is done, row by row of `Does`
    ensures does { IfOk words.now (λ words. (command : Option Command) → WordsAsk (map string_bytes words.items) command → Does command (record { files = F.now files.old; line = sim.old; units = units.old; dialer = D.now dial.old; report = None }) (record { files = F.now files.new; line = sim.new; units = units.new; dialer = D.now dial.new; report = last.new }) (Replies (K.now out.old) (K.now out.new) (status_of result))) }
    ensures undialled { IfOk words.now (λ words. (command : Option Command) → WordsAsk (map string_bytes words.items) command → reaches_network command ≡ false → dial.new ≡ dial.old) }
    ensures units { IfOk words.now (λ words. (command : Option Command) → WordsAsk (map string_bytes words.items) command → begins_units command ≡ false → units.new ≡ units.old) }
    ensures watched { IfOk words.now (λ words. (command : Option Command) → WordsAsk (map string_bytes words.items) command → WhereRun (TellsOfRun command (F.now files.old).file) last.new (watch_in W.watch watch.old) (watch_in W.watch watch.new)) }
    ensures files { (name : List ℕ) → (F.now files.new).file name ≡ (F.now files.old).file name }
    ensures reads { IfOk words.now (λ words. (command : Option Command) → WordsAsk (map string_bytes words.items) command → (F.now files.new).reads ≤ (F.now files.old).reads + length (files_of command)) }
    // where memory is wanting for the words, that is told, and nothing else is done
    ensures untouched { IfErr words.now (λ _. (files.new ≡ files.old) × (sim.new ≡ sim.old) × (units.new ≡ units.old) × (dial.new ≡ dial.old) × (watch.new ≡ watch.old) × (last.new ≡ last.old)) }
    ensures wanting { IfErr words.now (λ _. Replies (K.now out.old) (K.now out.new) (status_of result) (Stops (Wanting tt))) }
    ensures written { (K.now out.new).writes ≡ one_more (K.now out.old).writes }
{
    match words {
        Ok(words) => knx(
            rt,
            alloc,
            words.as_slice(),
            files,
            out,
            sim,
            units,
            dial,
            gate,
            watch,
            last,
        )
        .number(),
        Err(want) => without_words(*want, out),
    }
}
