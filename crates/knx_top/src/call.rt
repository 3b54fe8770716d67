//! The top call.

ghost use Rattle.std.specs.Prelude.{◌≡◌, ◌≤◌, ◌+◌, ℕ, List, None, Option, false, length, map, string_bytes};
ghost use Rattle.knx_model.specs.Outside.{one_more};
ghost use Rattle.knx_top.specs.commands.{WordsAsk, Command, Does, begins_units, files_of, reaches_network};
ghost use Rattle.call_parts.specs.Ending.{Replies};
ghost use Rattle.knx_top.specs.Watched.{TellsOfRun, WhereRun};
ghost use Rattle.line_model.specs.Watched.{watch_in};

use crate::commands::{asked, run};
use address_sim::AddressBus;
use bus_sim::SimBus;
use call_parts::{tell, tell_end};
use call_words::Status;
use knx_model::{Files, Sink};
use line_model::{Dialer, Gate, Report, Watcher};
use report_text::USAGE;
use std::alloc::Global;
use std::sync::Wait;
use std::thread::Threads;

/// All that the program does: it reads the words, reads the files, begins and ends the run, and writes the text. The status is
/// the program's exit status. `last` becomes the report of the run, and None where no run began. A link that it dialled or a port that it bound is handed back to the dialer. The downloaders are threads of `rt`, and each
/// passes `gate` between taking a job and starting it. Where somebody watches, he is told of a run while it goes on.
pub fn knx<
    R: Threads + Wait + Sync,
    F: Files,
    K: Sink,
    D: Dialer,
    G: Gate + Sync,
    W: Watcher + Send,
>(
    rt: &R,
    alloc: Global,
    words: &[String],
    files: &mut F,
    out: &mut K,
    sim: &mut SimBus,
    units: &mut AddressBus,
    dial: &mut D,
    gate: &G,
    watch: &mut Option<W>,
    last: &mut Option<Report>,
) -> Status
    // what the words ask for is done, row by row of `Does`; they ask for just one thing (`words_ask`)
    ensures does { (command : Option Command) → WordsAsk (map string_bytes words.now) command → Does command (record { files = F.now files.old; line = sim.old; units = units.old; dialer = D.now dial.old; report = None }) (record { files = F.now files.new; line = sim.new; units = units.new; dialer = D.now dial.new; report = last.new }) (Replies (K.now out.old) (K.now out.new) result) }
    // a command that reaches no network leaves the dialer as it was, and one that gives no address on the simulated bus of units leaves that
    ensures undialled { (command : Option Command) → WordsAsk (map string_bytes words.now) command → reaches_network command ≡ false → dial.new ≡ dial.old }
    ensures units { (command : Option Command) → WordsAsk (map string_bytes words.now) command → begins_units command ≡ false → units.new ≡ units.old }
    // who watches is told the log of the run, each entry once and in order; of a job that a worker holds by the entries told before, at most once a second, its device,
    // and how many of its operations are over, of how many; and nothing else, nothing where no run was begun, and nothing where the words ask for quiet
    ensures watched { (command : Option Command) → WordsAsk (map string_bytes words.now) command → WhereRun (TellsOfRun command (F.now files.old).file) last.new (watch_in W.watch watch.old) (watch_in W.watch watch.new) }
    // what the files tell stays, there are at most as many reads as the words name files, and there is just one write
    ensures files { (name : List ℕ) → (F.now files.new).file name ≡ (F.now files.old).file name }
    ensures reads { (command : Option Command) → WordsAsk (map string_bytes words.now) command → (F.now files.new).reads ≤ (F.now files.old).reads + length (files_of command) }
    ensures written { (K.now out.new).writes ≡ one_more (K.now out.old).writes }
{
    *last = None;
    match asked(words) {
        Some(command) => {
            let end = run(rt, alloc, command, files, sim, units, dial, gate, watch);
            let status = tell_end(alloc, out, &end);
            *last = end.report();
            status
        }
        None => tell(out, USAGE, Status::Usage),
    }
}
