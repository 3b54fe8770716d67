//! A run of `sim`: what was judged is commissioned over the simulated line, and what came of it is reported.

ghost use Rattle.std.specs.Prelude.{◌≡◌, ◌<◌, [], All, IsSome, Option, length, map};
ghost use Rattle.std.specs.List.{AllByRecursion};
ghost use Rattle.bus_sim.specs.declared.clients.Clients.TheVariants.{One};
ghost use Rattle.bus_sim.specs.RunNow.{world};
ghost use Rattle.knx_model.specs.declared.address.IndAddr.{IndAddr as Address};
ghost use Rattle.knx_model.specs.declared.config.Image.{Image as Compiled};
ghost use Rattle.hub_work.specs.Requests.{IsTurnInRange};
ghost use Rattle.hub_work.specs.declared.job.HubJob.{HubJob as JobOfHub};
ghost use Rattle.line_model.specs.Headline.{IsGoodJob};
ghost use Rattle.knx_top.specs.Begun.{IsOrder};
ghost use Rattle.call_parts.specs.Ending.{report_in};
ghost use Rattle.call_parts.specs.Jobs.{seen_job};
ghost use Rattle.call_parts.specs.Stops.{project_in};
ghost use Rattle.knx_top.specs.Ran.{Commission, FaultsOfLine};
ghost use Rattle.knx_top.specs.Watched.{TellsTested, TellsWatcher, WhereRun};
ghost use Rattle.line_model.specs.Polled.{none_failed};
ghost use Rattle.line_model.specs.Watched.{watch_in};
ghost use Rattle.knx_top.specs.commands.sim.{Comes, Runs, ShowsRun, judged, sim_tests, sim_words_of};

use crate::commands::sim::judge::{Order, judge};
use crate::commands::sim::{SimNames, SimTexts};
use crate::shown::all_shown;
use crate::watched::{Run, commission as commission_line};
use bus_sim::SimBus;
use call_parts::{End, Reported, SimOptions};
use call_words::JobWord;
use calm_law::{
    each_check_is_exact, nothing_fails_on_a_calm_line, plans_cost_by_their_lists,
    the_gateway_tells_its_own_address, undisturbing_scripts_are_calm,
};
use knx_model::{Image, IndAddr, List};
use line_model::{Gate, Report, Watcher};
use std::alloc::Global;
use std::sync::Wait;
use std::thread::Threads;

/// What is shown of a run that is over, in which so many group telegrams were to be sent.
fn end_of_run(
    alloc: Global,
    line: &SimBus,
    report: Report,
    jobs: List<JobWord>,
    turns: u32,
    devices: &[(IndAddr, Option<Image>)],
    log: bool,
) -> End
    requires { All (λ (d : Address × Option Compiled). IsSome ((world line.now.run).devices d.0.raw)) devices.now }
    ensures { ShowsRun line.now.run report jobs turns devices.now log result }
{
    match all_shown(alloc, line, devices) {
        Ok(devices) => End::Reports(Reported {
            report,
            jobs,
            turns,
            devices,
            log,
        }),
        Err(want) => End::BreaksOff(report, want),
    }
}

/// Goes through the jobs over the line, which is then the one that was run, whether the run ended or memory was wanting on the way.
pub fn run<R: Threads + Wait + Sync, G: Gate + Sync, W: Watcher + Send>(
    rt: &R,
    alloc: Global,
    order: Order,
    options: &SimOptions<'_>,
    sim: &mut SimBus,
    gate: &G,
    watch: &mut Option<W>,
) -> End
    requires one { order.line.run.begun.clients ≡ One }
    requires new { order.line.run.events ≡ [] }
    requires sound { order.line.faults ≡ none_failed }
    requires few { length order.plans < 4294967296 }
    requires good { AllByRecursion IsGoodJob (map seen_job order.plans) }
    requires few_turns { length order.turns < 4294967296 }
    requires sendable { AllByRecursion IsTurnInRange order.turns }
    requires devices { All (λ (d : Address × Option Compiled). IsSome ((world order.line.run).devices d.0.raw)) order.devices }
    ensures runs { (c : Commission) → IsOrder c order → c.options ≡ options.now → Runs c sim.old sim.new result }
    ensures link { FaultsOfLine (report_in result) sim.new }
    ensures watched { WhereRun (TellsWatcher (map (λ (job : JobOfHub). job.device) order.plans) options.now.quiet) (report_in result) (watch_in W.watch watch.old) (watch_in W.watch watch.new) }
{
    let Order {
        line,
        jobs,
        plans,
        turns,
        devices,
    } = order;
    line.keeps();
    let turn_count = turns.len() as u32;
    let run = Run {
        jobs: plans,
        groups: turns,
        link: line,
        workers: options.workers().count(),
        quiet: options.quiet,
    };
    let (line, report) = commission_line(rt, alloc, run, gate, watch);
    line.keeps();
    *sim = line;
    undisturbing_scripts_are_calm();
    nothing_fails_on_a_calm_line();
    each_check_is_exact();
    the_gateway_tells_its_own_address();
    plans_cost_by_their_lists();
    end_of_run(
        alloc,
        sim,
        report,
        jobs,
        turn_count,
        devices.as_slice(),
        options.log,
    )
}

/// Judges what was read and runs what it asks for.
pub fn commission<R: Threads + Wait + Sync, G: Gate + Sync, W: Watcher + Send>(
    rt: &R,
    alloc: Global,
    names: &SimNames<'_>,
    texts: &SimTexts,
    sim: &mut SimBus,
    gate: &G,
    watch: &mut Option<W>,
) -> End
    ensures comes { Comes (judged (sim_words_of names.now) texts.now) sim.old sim.new result }
    ensures link { FaultsOfLine (report_in result) sim.new }
    ensures watched { WhereRun (TellsTested (sim_tests (sim_words_of names.now) texts.now) names.now.options (project_in texts.now.catalogue texts.now.new)) (report_in result) (watch_in W.watch watch.old) (watch_in W.watch watch.new) }
{
    match judge(rt, alloc, names, texts) {
        Ok(order) => run(rt, alloc, order, &names.options, sim, gate, watch),
        Err(why) => End::Stops(why),
    }
}
