//! `download ADDR NEW [catalogue=F] [log] [quiet] [workers=N]` and jobs: the jobs of a project over a dialled link, which is handed back to the dialer before the call answers.

ghost use Rattle.std.specs.Prelude.{◌≡◌, ◌≢◌, ◌≤◌, ◌<◌, ◌+◌, ℕ, [], Err, IfErr, IfOk, List as Seq, Option, Some, length, map, string_bytes};
ghost use Rattle.std.specs.List.{AllByRecursion};
ghost use Rattle.std.specs.Option.{option_map};
ghost use Rattle.call_words.specs.declared.stop.Stop.TheVariants.{NoMemory as OutOfMemory};
ghost use Rattle.hub_work.specs.declared.job.HubJob.{HubJob as JobOfHub};
ghost use Rattle.line_model.specs.Headline.{IsGoodJob};
ghost use Rattle.line_model.specs.LinkStory.{IsNewLink};
ghost use Rattle.line_model.specs.Polled.{none_failed};
ghost use Rattle.line_model.specs.Watched.{watch_in};
ghost use Rattle.knx_top.specs.Dialled.{CountsDialled};
ghost use Rattle.knx_top.specs.Ran.{IsToldOver};
ghost use Rattle.call_parts.specs.Ending.{Is, Replies, report_in};
ghost use Rattle.call_parts.specs.Jobs.{seen_job};
ghost use Rattle.call_parts.specs.Names.{address_of};
ghost use Rattle.call_parts.specs.Options.{workers_of};
ghost use Rattle.call_parts.specs.OptionValues.{most_jobs};
ghost use Rattle.knx_top.specs.commands.{Download as AskedDownload};
ghost use Rattle.knx_top.specs.Watched.{TellsOfRun, TellsTested, TellsWatcher, WhereRun};
ghost use Rattle.knx_top.specs.commands.download.{Dials, DialsOr, Download, DownloadWords, IsReady, IsReadyFor, ReadyFor, RunsDialled, download_tests, download_told, download_words, download_words_of, files_of_download, judged_download, project_named, with_project};
ghost use Rattle.call_parts.specs.Project.{project_told, project_words_of};
ghost use Rattle.line_model.specs.Dialled.{DialerNow};
ghost use Rattle.knx_model.specs.Outside.{FilesNow, SinkNow};
ghost use Rattle.knx_top.specs.Complete.{IsDownloadTold, IsValidDownload, NoneRose, texts_told};
ghost use Rattle.line_model.specs.declared.log.Report.{Report as ReportOf};
ghost use Rattle.call_words.specs.declared.status.Status.{Status};

use crate::watched::{Run, commission};
use call_parts::{
    End, GatewayAddress, ProjectNames, ProjectTexts, Reported, SimOptions, address_in, all_planned,
    are_known, images_for, jobs_of, read_in, read_project_texts, sim_options, sound_in,
    unknown_job,
};
use call_words::{InputFile, JobWord, Stop};
use hub_work::HubJob;
use knx_model::{Files, List, NoMemory};
use line_model::{Dialer, Gate, Report, Watcher};
use project_check::Checked;
use std::alloc::Global;
use std::sync::Wait;
use std::thread::Threads;

/// The gateway and the name in `ADDR NEW`, with options and jobs.
#[derive(Drop)]
pub struct DownloadNames<'a> {
    pub at: GatewayAddress,
    pub new: &'a str,
    pub options: SimOptions<'a>,
}

impl<'a> DownloadNames<'a> {
    /// The names of the files.
    pub fn project(&self) -> ProjectNames<'a>
        ensures { project_words_of result ≡ project_named (download_words_of self.now) }
    {
        ProjectNames {
            project: self.new,
            catalogue: self.options.catalogue(),
        }
    }
}

/// The names of `download`.
pub fn download_names(words: &[String]) -> Option<DownloadNames<'_>>
    ensures { option_map download_words_of result ≡ download_words (map string_bytes words.now) }
{
    let [address, new, others @ ..] = words else {
        return None;
    };
    let at = address_in(address.as_str())?;
    let options = sim_options(others)?;
    Some(DownloadNames {
        at,
        new: new.as_str(),
        options,
    })
}

/// The jobs of a download.
#[derive(Drop)]
pub struct Ready {
    /// As words name them.
    pub jobs: List<JobWord>,
    /// With their plans.
    pub plans: List<HubJob>,
}

/// The jobs of a run, each with its plan.
fn ready_for<R: Threads + Sync>(
    rt: &R,
    alloc: Global,
    named: &[JobWord],
    project: &Checked<'_, '_>,
) -> Result<Ready, NoMemory>
    requires { length named.now ≤ most_jobs }
    ensures { IfOk result (λ ready. IsReady project.now named.now ready) }
{
    let jobs = jobs_of(alloc, named, project)?;
    let images = images_for(rt, alloc, project, jobs.as_slice())?;
    let plans = all_planned(alloc, project, &images, jobs.as_slice())?;
    Ok(Ready { jobs, plans })
}

/// The last test, of the devices that the jobs name.
fn judge_jobs<R: Threads + Sync>(
    rt: &R,
    alloc: Global,
    names: &DownloadNames<'_>,
    project: &Checked<'_, '_>,
) -> Result<Ready, Stop>
    ensures ok { IfOk result (λ ready. ReadyFor (with_project (download_words_of names.now) project.now) ready) }
    ensures err { IfErr result (λ why. why ≢ OutOfMemory tt → with_project (download_words_of names.now) project.now ≡ Err why) }
{
    let named = names.options.jobs.as_slice();
    if !are_known(project, named) {
        return Err(unknown_job());
    }
    let ready = ready_for(rt, alloc, named, project)?;
    Ok(ready)
}

/// What was read is judged in order: the catalogue, NEW, then the devices of the jobs.
fn judge<R: Threads + Sync>(
    rt: &R,
    alloc: Global,
    names: &DownloadNames<'_>,
    texts: &ProjectTexts,
) -> Result<Ready, Stop>
    ensures ok { IfOk result (λ ready. ReadyFor (judged_download (download_words_of names.now) texts.now) ready) }
    ensures err { IfErr result (λ why. why ≢ OutOfMemory tt → judged_download (download_words_of names.now) texts.now ≡ Err why) }
{
    let read = read_in(rt, alloc, names.project(), texts)?;
    let checked = sound_in(rt, alloc, InputFile::New, &read.project, &read.models)?;
    let ready = judge_jobs(rt, alloc, names, &checked)?;
    Ok(ready)
}

/// Goes through the jobs over a link that was dialled, and hands it back.
fn run<R: Threads + Wait + Sync, D: Dialer, G: Gate + Sync, W: Watcher + Send>(
    rt: &R,
    alloc: Global,
    plans: List<HubJob>,
    options: &SimOptions<'_>,
    dial: &mut D,
    line: D::L,
    gate: &G,
    watch: &mut Option<W>,
) -> Report
    requires new { IsNewLink (D.L.story line) }
    requires sound { D.L.faults line ≡ none_failed }
    requires few { length plans < 4294967296 }
    requires good { AllByRecursion IsGoodJob (map seen_job plans) }
    ensures told { IsToldOver (workers_of options.now) [] (map seen_job plans) (D.now dial.new).link_back result }
    ensures given { (D.now dial.new).given ≡ (D.now dial.old).given }
    ensures dials { (D.now dial.new).dials ≡ (D.now dial.old).dials }
    ensures counts { CountsDialled result (D.now dial.old) (D.now dial.new) }
    ensures watched { TellsWatcher (map (λ (job : JobOfHub). job.device) plans) options.now.quiet result (watch_in W.watch watch.old) (watch_in W.watch watch.new) }
{
    let run = Run {
        jobs: plans,
        groups: List::new(alloc),
        link: line,
        workers: options.workers().count(),
        quiet: options.quiet,
    };
    let (line, report) = commission(rt, alloc, run, gate, watch);
    dial.hang(line);
    report
}

/// Dials the gateway, and goes through the jobs over the link. No group telegrams are sent.
fn dial_and_run<R: Threads + Wait + Sync, D: Dialer, G: Gate + Sync, W: Watcher + Send>(
    rt: &R,
    alloc: Global,
    names: &DownloadNames<'_>,
    ready: Ready,
    dial: &mut D,
    gate: &G,
    watch: &mut Option<W>,
) -> End
    requires few { length ready.plans < 4294967296 }
    requires good { AllByRecursion IsGoodJob (map seen_job ready.plans) }
    ensures watched { WhereRun (TellsWatcher (map (λ (job : JobOfHub). job.device) ready.plans) names.now.options.quiet) (report_in result) (watch_in W.watch watch.old) (watch_in W.watch watch.new) }
    ensures dials { (d : Download) → IsReadyFor d ready → d.at ≡ address_of names.now.at → d.options ≡ names.now.options → Dials d (D.now dial.old) (D.now dial.new) result }
{
    match dial.dial(names.at.host, names.at.port) {
        Ok(line) => {
            let report = run(
                rt,
                alloc,
                ready.plans,
                &names.options,
                dial,
                line,
                gate,
                watch,
            );
            End::Reports(Reported {
                report,
                jobs: ready.jobs,
                turns: 0,
                devices: List::new(alloc),
                log: names.options.log,
            })
        }
        Err(_) => End::NotOpened,
    }
}

/// Judges what was read, and dials what it asks for.
fn download<R: Threads + Wait + Sync, D: Dialer, G: Gate + Sync, W: Watcher + Send>(
    rt: &R,
    alloc: Global,
    names: &DownloadNames<'_>,
    texts: &ProjectTexts,
    dial: &mut D,
    gate: &G,
    watch: &mut Option<W>,
) -> End
    ensures watched { WhereRun (TellsTested (download_tests (download_words_of names.now) texts.now) names.now.options (project_told texts.now)) (report_in result) (watch_in W.watch watch.old) (watch_in W.watch watch.new) }
    ensures dials { DialsOr (judged_download (download_words_of names.now) texts.now) (D.now dial.old) (D.now dial.new) result }
{
    match judge(rt, alloc, names, texts) {
        Ok(ready) => dial_and_run(rt, alloc, names, ready, dial, gate, watch),
        Err(why) => End::Stops(why),
    }
}

/// A call of `download`.
pub fn call<R: Threads + Wait + Sync, F: Files, D: Dialer, G: Gate + Sync, W: Watcher + Send>(
    rt: &R,
    alloc: Global,
    names: &DownloadNames<'_>,
    files: &mut F,
    dial: &mut D,
    gate: &G,
    watch: &mut Option<W>,
) -> End
    ensures told { RunsDialled (download_words_of names.now) (F.now files.old) (F.now files.new) (D.now dial.old) (D.now dial.new) (report_in result) (Is result) }
    ensures stays { (other : Seq ℕ) → (F.now files.new).file other ≡ (F.now files.old).file other }
    ensures reads { (F.now files.new).reads ≤ (F.now files.old).reads + length (files_of_download (download_words_of names.now)) }
    ensures watched { WhereRun (TellsOfRun (Some (AskedDownload (download_words_of names.now))) (F.now files.old).file) (report_in result) (watch_in W.watch watch.old) (watch_in W.watch watch.new) }
{
    let texts = read_project_texts(alloc, files, names.project());
    download(rt, alloc, names, &texts, dial, gate, watch)
}

/// Where the files of the words are told, no test fails and no count rose, the gateway of the words is dialled once, and the whole report is written with its status, or
/// that it couldn't be dialled, or there was no memory.
pub fn valid_input_is_told()
    ensures { (words : DownloadWords) (files files' : FilesNow) (before after : DialerNow) (report : Option ReportOf) (out out' : SinkNow) (ending : Status) → IsValidDownload files.file words → NoneRose files files' out out'
        → RunsDialled words files files' before after report (Replies out out' ending) → IsDownloadTold (download_told words (texts_told files.file (project_named words))) before after report out out' ending }
{}
