//! What a watcher is told of.

ghost use Rattle.std.specs.Prelude.{◌≡◌, [], List, IfSome, None, Some};
ghost use Rattle.download_core.specs.JobPlans.{job_count};
ghost use Rattle.hub_work.specs.declared.job.HubJob.{HubJob as JobOfHub};
ghost use Rattle.hub_work.specs.Journals.{newest};
ghost use Rattle.hub_core.specs.Seen.{AreJobs};
ghost use Rattle.line_model.specs.Log.{Job, numbered_from_one};
ghost use Rattle.line_model.specs.Watched.{IsRunning, ShowsProgress};
ghost use Rattle.tunnel_link.specs.Rights.{WhereTold};

use super::Hub;
use line_model::{JobProgress, Link, LogEntry};

impl<L: Link> Hub<L> {
    /// The newest entry of the log.
    pub fn newest(&self) -> Option<&LogEntry>
        ensures some { IfSome result (λ e. newest self.now.log ≡ Some e.now) }
        ensures none { result ≡ None → self.now.log ≡ [] }
    {
        self.work.newest()
    }

    /// How far the job is that a worker, from 1, holds; None where he holds none, or no attempt runs that could come to its end.
    pub fn progress(&self, worker: u8) -> Option<JobProgress>
        requires stands { self.now.fault ≡ None }
        ensures worker { IfSome result (λ p. p.worker ≡ worker) }
        ensures place { IfSome result (λ p. p.at ≡ L.place self.now.link) }
        ensures time { IfSome result (λ p. p.now ≡ L.clock self.now.link) }
        ensures running { IfSome result (IsRunning self.now.devices self.now.log) }
        ensures all { IfSome result (λ p. (job : JobOfHub) → numbered_from_one self.now.jobs p.job ≡ Some job → p.all ≡ job_count job.plan) }
        ensures shown { IfSome result (λ p. (jobs : List Job) → AreJobs self.now.jobs jobs → WhereTold (λ places. ShowsProgress jobs places self.now.log p) (L.story self.now.link)) }
    {
        let (held, gone) = self.work.gone(worker)?;
        Some(JobProgress {
            at: self.tunnel.at(),
            now: self.tunnel.now(),
            worker,
            job: held.job,
            device: gone.device,
            done: gone.done,
            all: gone.all,
        })
    }
}
