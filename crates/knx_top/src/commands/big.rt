//! `big N START`: a run of `sim` over the line of N devices that a number makes, told in one line.

ghost use Rattle.std.specs.Prelude.{◌≡◌, ◌≢◌, ◌≤◌, [], ℕ, ◌∷◌, Err, IfErr, IfOk, List, Some, map, string_bytes};
ghost use Rattle.call_words.specs.declared.stop.Stop.TheVariants.{NoMemory as OutOfMemory};
ghost use Rattle.knx_model.specs.Counts.{counts_of};
ghost use Rattle.knx_top.specs.Begun.{OrderFor};
ghost use Rattle.call_parts.specs.Ending.{Is, Replies, report_in};
ghost use Rattle.knx_top.specs.Ran.{FaultsOfLine, Left};
ghost use Rattle.call_parts.specs.Options.{no_options};
ghost use Rattle.knx_top.specs.Watched.{TellsOfJobs, WhereRun};
ghost use Rattle.line_model.specs.Watched.{watch_in};
ghost use Rattle.knx_top.specs.commands.big.{BigWords, RunsMade, big_words, commission_made, judged_made, made, most_devices, start_value, summed};
ghost use Rattle.bus_sim.specs.Loaded.{BusNow};
ghost use Rattle.bus_sim.specs.Ended.{IsAtEnd};
ghost use Rattle.knx_top.specs.Complete.{IsLoadedWhole, IsRunTold};
ghost use Rattle.knx_model.specs.Outside.{Rose, SinkNow};
ghost use Rattle.call_words.specs.declared.status.Status.{Status};
ghost use Rattle.call_parts.specs.declared.ending.End.TheVariants.{Sums};

use crate::commands::sim::judge::{Order, judge_behind};
use crate::commands::sim::run::run;
use bus_sim::SimBus;
use call_parts::{End, SimOptions, are_digits, from_1_to, sound_in};
use call_words::{InputFile, Stop};
use knx_gen::laws::each_project_is_checked;
use knx_gen::{GroupNames, project_from};
use knx_model::{Catalogue, Counts};
use line_model::{Gate, Watcher};
use std::alloc::Global;
use std::marker::Model;
use std::sync::Wait;
use std::thread::Threads;

/// The most devices that a line is made with.
const MOST_DEVICES: u32 = 254;

/// The most digits of a number of 64 bits.
const MOST_DIGITS: usize = 20;

/// The numbers in `N START`: how many devices, and the number that makes their line.
#[derive(Drop)]
pub struct BigNumbers {
    devices: u16,
    start: u64,
}

impl Model for BigNumbers {
    ghost use Rattle.std.specs.Prelude.{◌≤◌};
    ghost use Rattle.knx_top.specs.commands.big.{BigWords, most_devices};

    ghost Value = { BigWords };

    ghost view = { λ b. record { devices = b.devices; start = b.start } };

    ghost invariant = { λ b. b.devices ≤ most_devices };
}

/// The number that 1 to 20 decimal digits write, where it has 64 bits.
#[tactic(auto, using(crate::proofs::Starts::start_read, crate::proofs::Starts::no_start))]
fn start_in(word: &str) -> Option<u64>
    ensures { result ≡ start_value word.now }
{
    if word.len() <= MOST_DIGITS && are_digits(word.as_bytes()) {
        word.parse::<u64>().ok()
    } else {
        None
    }
}

/// The numbers of `big`.
pub fn big_numbers(words: &[String]) -> Option<BigNumbers>
    ensures { result ≡ big_words (map string_bytes words.now) }
{
    let [devices, start] = words else {
        return None;
    };
    let devices = from_1_to(MOST_DEVICES, devices.as_str())?;
    let start = start_in(start.as_str())?;
    Some(BigNumbers {
        devices: devices as u16,
        start,
    })
}

/// What the run is begun with, and the counts of its project, which breaks no rule.
fn judge<R: Threads + Sync>(
    rt: &R,
    alloc: Global,
    numbers: &BigNumbers,
) -> Result<(Order, Counts), Stop>
    ensures ok { IfOk result (λ begun. OrderFor (judged_made numbers.now) begun.0) }
    ensures few { numbers.now.devices ≤ most_devices }
    ensures counts { IfOk result (λ begun. begun.1 ≡ counts_of (made numbers.now)) }
    ensures err { IfErr result (λ why. why ≢ OutOfMemory tt → judged_made numbers.now ≡ Err why) }
{
    let (devices, start) = (numbers.devices, numbers.start);
    let names = GroupNames::new(alloc)?;
    let project = project_from(alloc, &names, devices, start)?;
    let models = Catalogue::empty(alloc);
    let new = sound_in(rt, alloc, InputFile::New, &project, &models)?;
    let order = judge_behind(rt, alloc, &SimOptions::none(), &models, &new, &[], &[])?;
    Ok((order, new.counts()))
}

/// The end of a run of `sim`, with its sums in place of its report.
fn summed(end: End, counts: Counts) -> End
    ensures { result ≡ summed counts end }
{
    match end {
        End::Reports(reported) => End::Sums(reported, counts),
        other => other,
    }
}

/// A call of `big`.
pub fn call<R: Threads + Wait + Sync, G: Gate + Sync, W: Watcher + Send>(
    rt: &R,
    alloc: Global,
    numbers: &BigNumbers,
    sim: &mut SimBus,
    gate: &G,
    watch: &mut Option<W>,
) -> End
    ensures told { RunsMade numbers.now sim.old (record { line = sim.new; report = report_in result }) (Is result) }
    ensures link { FaultsOfLine (report_in result) sim.new }
    ensures watched { WhereRun (TellsOfJobs no_options (made numbers.now)) (report_in result) (watch_in W.watch watch.old) (watch_in W.watch watch.new) }
{
    each_project_is_checked();
    match judge(rt, alloc, numbers) {
        Ok((order, counts)) => {
            let end = run(rt, alloc, order, &SimOptions::none(), sim, gate, watch);
            summed(end, counts)
        }
        Err(why) => End::Stops(why),
    }
}

/// Where no count rose, the line that is made is run, and its sums are written with their status, or there was no memory.
pub fn valid_input_is_told()
    ensures { (words : BigWords) (before : BusNow) (after : Left) (out out' : SinkNow) (ending : Status) → ¬ Rose out.faults out'.faults → RunsMade words before after (Replies out out' ending)
        → IsRunTold (λ told. Sums told (counts_of (made words))) (commission_made words) after out out' ending }
{}

/// Nothing disturbs a run of `big`: where it isn't as long as 64 bits can tell, each device that is made is loaded and runs
/// what the project says of it at the end, the whole line tells so, and the status is 0; or there was no memory.
pub fn each_made_line_is_loaded()
    ensures { (devices start : List ℕ) (words : BigWords) (before : BusNow) (after : Left) (out out' : SinkNow) (ending : Status) → big_words (devices ∷ start ∷ []) ≡ Some words → ¬ Rose out.faults out'.faults → ¬ IsAtEnd after.line.run
        → RunsMade words before after (Replies out out' ending) → IsLoadedWhole words out out' ending }
{}
