//! The hub.

mod finish;
mod group;
mod pump;
mod taking;
mod turn;
mod watch;

ghost use Rattle.std.specs.Prelude.{◌≡◌, ◌≤◌, ◌<◌, ◌+◌, ◌^◌, ◌-◌, min, length, map, replicate, reverse, List, [], IfOk, IfErr, Some, None};
ghost use Rattle.std.specs.List.{AllByRecursion};
ghost use Rattle.line_model.specs.Headline.{Keeps, IsGoodJob};
ghost use Rattle.line_model.specs.LinkStory.{IsNewLink, IsPlace, record_in};
ghost use Rattle.line_model.specs.Log.{Job, IsLog, OneDownloaderPerDevice, TakenInOrder};
ghost use Rattle.hub_work.specs.Books.{AreJobsOf};
ghost use Rattle.hub_work.specs.Requests.{IsTurnInRange};
ghost use Rattle.hub_work.specs.declared.job.HubJob.{HubJob as JobOfHub};
ghost use Rattle.hub_core.specs.Promises.{DropsIn, FaultRightIn, HasParted, HastensIn, IsRightOver, IsSafeOver, TellsIn};
ghost use Rattle.hub_core.specs.Seen.{AreJobs, tasks_seen};
ghost use Rattle.hub_core.specs.Thorough.{IsThoroughOver};

use crate::end::HubEnd;
use device_reservation::one_downloader_per_device;
use hub_work::{HubJob, Work};
use knx_model::{List, NoMemory};
use line_law::every_safe_interleaving;
use line_model::{GroupTurn, HubFault, Link};
use std::alloc::Global;
use std::marker::Model;
use tunnel_link::Tunnel;

/// All jobs of a line and its group telegrams over one tunnel.
///
/// ```text
///   worker:        turn(w), and pump where it answers Wait or Later
///   group thread:  send_group(k), and pump where it answers Wait
///   at the end:    finish, until it answers Over
/// ```
///
/// After a fault each later call answers that fault, and nothing more is done on the link.
#[derive(Drop)]
pub struct Hub<L: Link> {
    tunnel: Tunnel<L>,
    work: Work,
    /// A channel was open.
    met: bool,
    missed: u64,
}

impl<L: Link> Model for Hub<L> {
    ghost use Rattle.hub_core.specs.Seen.{Seen};

    ghost Value = { Seen L };

    ghost use Rattle.hub_core.specs.Keeps.{Keeps};
    ghost use Rattle.std.specs.Prelude.{map};
    ghost use Rattle.hub_core.specs.Seen.{hub_job_of};

    ghost view = { λ h. record { link = h.tunnel.link; known = h.tunnel.known; jobs = map hub_job_of h.work.downloaders; devices = h.work.reservation.devices; crew = h.work.crew; turns = h.work.telegrams.turns; log = h.work.journal.entries; fault = h.tunnel.known.fault; closing = h.work.closing; missed = h.missed } };

    ghost invariant = { λ h. Keeps (L.place h.tunnel.link) (L.story h.tunnel.link) h.work h.met h.tunnel.known.fault };
}

impl<L: Link> Hub<L> {
    /// A hub for these jobs and group telegrams, with 1 to 8 workers, over a link on which nothing was done. It takes all memory of the hub, and
    /// does nothing on the link. For want of memory the link is handed back.
    pub fn begin(
        alloc: Global,
        jobs: List<HubJob>,
        groups: List<GroupTurn>,
        workers: u8,
        link: L,
    ) -> Result<Hub<L>, (L, NoMemory)>
        requires some_worker { 1 ≤ workers }
        requires few_workers { workers ≤ 8 }
        requires few_jobs { length jobs < 4294967296 }
        requires few_groups { length groups < 4294967296 }
        requires sendable { AllByRecursion IsTurnInRange groups }
        requires new { IsNewLink (L.story link) }
        ensures link { IfOk result (λ hub. hub.link ≡ link) }
        ensures jobs { IfOk result (λ hub. tasks_seen hub.jobs ≡ tasks_seen jobs) }
        ensures devices { IfOk result (λ hub. hub.devices ≡ map (λ (j : JobOfHub). j.device) jobs) }
        ensures turns { IfOk result (λ hub. hub.turns ≡ groups) }
        ensures crew { IfOk result (λ hub. hub.crew ≡ replicate workers None) }
        ensures log { IfOk result (λ hub. hub.log ≡ []) }
        ensures fault { IfOk result (λ hub. hub.fault ≡ None) }
        ensures missed { IfOk result (λ hub. hub.missed ≡ 0) }
        ensures unbegun { IfOk result (λ hub. hub.closing ≡ None) }
        ensures handed_back { IfErr result (λ e. e.0 ≡ link) }
    {
        match Work::new(alloc, jobs, groups, workers) {
            Ok(work) => Ok(Hub {
                tunnel: Tunnel::begin(link),
                work,
                met: false,
                missed: 0,
            }),
            Err(no_memory) => Err((link, no_memory)),
        }
    }

    /// Why nothing more is done.
    pub fn fault(&self) -> Option<HubFault>
        ensures { result ≡ self.now.fault }
    {
        self.tunnel.fault()
    }

    /// One indication more was missed.
    pub fn missed(&mut self)
        ensures link { self.new.link ≡ self.old.link }
        ensures fault { self.new.fault ≡ self.old.fault }
        ensures jobs { self.new.jobs ≡ self.old.jobs }
        ensures devices { self.new.devices ≡ self.old.devices }
        ensures turns { self.new.turns ≡ self.old.turns }
        ensures log { self.new.log ≡ self.old.log }
        ensures closing { self.new.closing ≡ self.old.closing }
        ensures crew { self.new.crew ≡ self.old.crew }
        ensures missed { self.new.missed ≡ min (self.old.missed + 1) (2 ^ 64 - 1) }
    {
        self.missed = self.missed.saturating_add(1);
    }

    /// How many entries the log has.
    pub fn entries(&self) -> u64
        ensures count { result ≡ length self.now.log }
        // so that one more can be counted
        ensures small { result < 18446744073709551615 }
    {
        self.work.entries()
    }

    /// Hands the link back, and what is told of the run.
    pub fn close(self) -> HubEnd<L>
        ensures link { result.link ≡ self.link }
        ensures fault { result.fault ≡ self.fault }
        ensures log { result.log ≡ reverse self.log }
        ensures missed { result.missed ≡ self.missed }
        ensures dropped { DropsIn result.dropped (record_in (L.story self.link)) }
    {
        let Hub {
            tunnel,
            work,
            met: _,
            missed,
        } = self;
        tunnel.keeps();
        let dropped = tunnel.dropped();
        let fault = tunnel.fault();
        HubEnd {
            link: tunnel.end(),
            log: work.into_log(),
            missed,
            dropped,
            fault,
        }
    }

    /// What its type keeps, at every moment and after a fault too, for any jobs with its devices and plans. Where its link tells something: the log is
    /// one of its jobs and telegrams, what it tells is true, and each request was right; all is kept that the line's promises need of the client, and it
    /// polled promptly, so that it kept the client's whole discipline; it is thorough in what it ends; it lost no time, and polled only while there was
    /// no cause to end; it has ended exactly where there is a cause; and over a link that tells its events and with good jobs, what the law of the line
    /// says. Until it has ended, the gateway was told of each loss of the channel. Over every link its log is one of its jobs and telegrams, with one
    /// downloader for each device, and each job that was taken was the first that was free.
    pub fn keeps(&self)
        ensures tells { (jobs : List Job) → AreJobs self.now.jobs jobs → TellsIn jobs self.now.turns self.now.log (L.story self.now.link) }
        ensures headline { (jobs : List Job) → AreJobs self.now.jobs jobs → Keeps jobs self.now.turns (L.story self.now.link) self.now.log }
        ensures safe { (jobs : List Job) → AreJobs self.now.jobs jobs → IsSafeOver jobs self.now.turns (L.story self.now.link) self.now.log }
        ensures thorough { (jobs : List Job) → AreJobs self.now.jobs jobs → IsThoroughOver jobs (L.story self.now.link) self.now.log }
        ensures hastens { (jobs : List Job) → AreJobs self.now.jobs jobs → HastensIn jobs self.now.turns self.now.log (L.story self.now.link) }
        ensures right { (jobs : List Job) → AreJobs self.now.jobs jobs → AllByRecursion IsGoodJob jobs → IsRightOver jobs (L.story self.now.link) self.now.log }
        ensures fault { (jobs : List Job) → AreJobs self.now.jobs jobs → FaultRightIn jobs self.now.log self.now.fault (record_in (L.story self.now.link)) }
        ensures form { (jobs : List Job) → AreJobsOf self.now.devices jobs → IsLog jobs self.now.turns (L.place self.now.link) self.now.log }
        ensures alone { (jobs : List Job) → AreJobsOf self.now.devices jobs → OneDownloaderPerDevice jobs self.now.log }
        ensures in_order { (jobs : List Job) → AreJobsOf self.now.devices jobs → TakenInOrder jobs self.now.log }
        ensures parted { self.now.fault ≡ None → HasParted (L.story self.now.link) }
        ensures place { IsPlace (L.place self.now.link) (L.story self.now.link) }
    {
        one_downloader_per_device();
        every_safe_interleaving();
        let _work = &self.work;
        let _at = self.tunnel.at();
        self.tunnel.keeps();
    }
}
