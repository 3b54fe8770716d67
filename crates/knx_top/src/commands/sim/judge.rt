//! What was read is judged in order: the catalogue, NEW, OLD, the script and its devices, then the devices of the jobs.

ghost use Rattle.line_model.specs.Polled.{none_failed};
ghost use Rattle.std.specs.Prelude.{◌≡◌, ◌≢◌, ◌≤◌, Err, IfErr, IfOk, length, map};
ghost use Rattle.call_words.specs.declared.stop.Stop.TheVariants.{NoMemory as OutOfMemory};
ghost use Rattle.knx_top.specs.Begun.{BeginsLine, IsPrepared, OrderFor};
ghost use Rattle.call_parts.specs.Jobs.{ArePlanned, seen_job};
ghost use Rattle.call_parts.specs.OnLine.{AreCompiled, on_bus};
ghost use Rattle.call_parts.specs.OptionValues.{most_jobs};
ghost use Rattle.knx_top.specs.commands.sim.{judged, sim_words_of, with_lines, with_project};

use crate::commands::sim::{SimNames, SimTexts};
use crate::line::{compiled, line_begun, on_bus};
use bus_sim::SimBus;
use call_parts::{
    SimOptions, all_planned, are_known, jobs_of, models_in, project_in, read_of, script_in,
    sound_in, turns_of, unknown_job,
};
use call_words::{InputFile, JobWord, Stop};
use hub_work::HubJob;
use knx_model::{Catalogue, Image, IndAddr, List, NoMemory};
use line_model::GroupTurn;
use project_check::Checked;
use script_text::Script;
use std::alloc::Global;
use std::thread::Threads;
use table_compiler::Images;

/// All that a run is begun with.
#[derive(Drop)]
pub struct Order {
    /// The line, to which nothing was done.
    pub line: SimBus,
    /// The jobs, as words name them.
    pub jobs: List<JobWord>,
    /// The same jobs with their plans.
    pub plans: List<HubJob>,
    /// The group telegrams, in the order in which they are sent.
    pub turns: List<GroupTurn>,
    /// The devices on the line, ascending, each with NEW's image where NEW has it.
    pub devices: List<(IndAddr, Option<Image>)>,
}

/// The plans of jobs, and the devices on the line, ascending, each with NEW's image where NEW has it. Each device is compiled once.
fn plans_and_devices<R: Threads + Sync>(
    rt: &R,
    alloc: Global,
    jobs: &[JobWord],
    new: &Checked<'_, '_>,
    old: &Checked<'_, '_>,
) -> Result<(List<HubJob>, List<(IndAddr, Option<Image>)>), NoMemory>
    ensures plans { IfOk result (λ r. ArePlanned new.now (map seen_job r.0) jobs.now) }
    ensures devices { IfOk result (λ r. AreCompiled new.now r.1 (on_bus new.now old.now)) }
{
    let bus = on_bus(alloc, new, old)?;
    let images = Images::of(rt, alloc, new, bus.as_slice())?;
    let plans = all_planned(alloc, new, &images, jobs)?;
    let devices = compiled(alloc, new, &images, bus.as_slice())?;
    Ok((plans, devices))
}

/// What a run is begun with, over a line that has begun.
fn order_of<R: Threads + Sync>(
    rt: &R,
    alloc: Global,
    named: &[JobWord],
    new: &Checked<'_, '_>,
    old: &Checked<'_, '_>,
    script: &Script,
    line: SimBus,
) -> Result<Order, NoMemory>
    requires { length named.now ≤ most_jobs }
    ensures line { IfOk result (λ order. order.line ≡ line) }
    ensures prepared { IfOk result (λ order. IsPrepared new.now old.now script.now.lines named.now order) }
{
    let jobs = jobs_of(alloc, named, new)?;
    let turns = turns_of(alloc, script)?;
    let (plans, devices) = plans_and_devices(rt, alloc, jobs.as_slice(), new, old)?;
    Ok(Order {
        line,
        jobs,
        plans,
        turns,
        devices,
    })
}

/// The last test, of the devices that the jobs name, over a line that has begun.
fn judge_jobs<R: Threads + Sync>(
    rt: &R,
    alloc: Global,
    options: &SimOptions<'_>,
    new: &Checked<'_, '_>,
    old: &Checked<'_, '_>,
    script: &Script,
    line: SimBus,
) -> Result<Order, Stop>
    requires begins { BeginsLine new.now old.now script.now.lines line.run }
    requires sound { line.faults ≡ none_failed }
    ensures ok { IfOk result (λ order. OrderFor (with_lines options.now new.now old.now script.now.lines) order) }
    ensures err { IfErr result (λ why. why ≢ OutOfMemory tt → with_lines options.now new.now old.now script.now.lines ≡ Err why) }
{
    let named = options.jobs.as_slice();
    if !are_known(new, named) {
        return Err(unknown_job());
    }
    let order = order_of(rt, alloc, named, new, old, script, line)?;
    Ok(order)
}

/// The tests of a script and of the devices that it and the jobs name.
fn judge_script<R: Threads + Sync>(
    rt: &R,
    alloc: Global,
    options: &SimOptions<'_>,
    new: &Checked<'_, '_>,
    old: &Checked<'_, '_>,
    script: &Script,
) -> Result<Order, Stop>
    ensures ok { IfOk result (λ order. OrderFor (with_lines options.now new.now old.now script.now.lines) order) }
    ensures err { IfErr result (λ why. why ≢ OutOfMemory tt → with_lines options.now new.now old.now script.now.lines ≡ Err why) }
{
    match line_begun(rt, alloc, new, old, script) {
        Ok(line) => judge_jobs(rt, alloc, options, new, old, script, line),
        Err(why) => Err(why),
    }
}

/// What is behind NEW is judged: OLD, then the script and its devices, and the devices of the jobs.
pub fn judge_behind<R: Threads + Sync>(
    rt: &R,
    alloc: Global,
    options: &SimOptions<'_>,
    models: &Catalogue,
    new: &Checked<'_, '_>,
    old: &[u8],
    script: &[u8],
) -> Result<Order, Stop>
    ensures ok { IfOk result (λ order. OrderFor (with_project options.now models.now old.now script.now new.now) order) }
    ensures err { IfErr result (λ why. why ≢ OutOfMemory tt → with_project options.now models.now old.now script.now new.now ≡ Err why) }
{
    let old = project_in(rt, alloc, InputFile::Old, old)?;
    let old = sound_in(rt, alloc, InputFile::Old, &old, models)?;
    let script = script_in(alloc, script)?;
    let order = judge_script(rt, alloc, options, new, &old, &script)?;
    Ok(order)
}

/// What a run is begun with, or why the call stops before one.
pub fn judge<R: Threads + Sync>(
    rt: &R,
    alloc: Global,
    names: &SimNames<'_>,
    texts: &SimTexts,
) -> Result<Order, Stop>
    ensures ok { IfOk result (λ order. OrderFor (judged (sim_words_of names.now) texts.now) order) }
    ensures err { IfErr result (λ why. why ≢ OutOfMemory tt → judged (sim_words_of names.now) texts.now ≡ Err why) }
{
    read_of(alloc, names.options.catalogue(), &texts.catalogue)?;
    let new = read_of(alloc, Some(names.new), &texts.new)?;
    let old = read_of(alloc, Some(names.old), &texts.old)?;
    let script = read_of(alloc, Some(names.script), &texts.script)?;
    let models = models_in(alloc, &texts.catalogue)?;
    let new = project_in(rt, alloc, InputFile::New, new)?;
    let new = sound_in(rt, alloc, InputFile::New, &new, &models)?;
    let order = judge_behind(rt, alloc, &names.options, &models, &new, old, script)?;
    Ok(order)
}
