//! The downloaders of the jobs.

ghost use Rattle.std.specs.Prelude.{◌≡◌, ◌-◌, ◌<◌, ◌≤◌, length, map, None, IfOk, IfSome, option_map, option_and_then};
ghost use Rattle.download_core.specs.Attempt.{DownloaderState};
ghost use Rattle.download_core.specs.Calls.{confirmed, taken, lost, phase_deadline};
ghost use Rattle.download_core.specs.Steps.{next_did, stepped};
ghost use Rattle.hub_work.specs.Downloaders.{changed, downloader_of, states, new_of_job};
ghost use Rattle.hub_work.specs.Going.{HasGone};

use crate::job::HubJob;
use download_core::{Did, Downloader, Gone};
use knx_model::{List, NoMemory};
use std::alloc::Global;
use std::marker::Model;

/// The downloaders of a run's jobs, one of each; jobs are numbered from 1. What is told of a job that there isn't changes none.
#[derive(Drop)]
pub struct Downloaders {
    all: Vec<Downloader>,
}

impl Model for Downloaders {
    ghost use Rattle.std.specs.Prelude.{List};
    ghost use Rattle.download_core.specs.Keeps.{Known};

    ghost Value = { List Known };

    ghost view = { λ d. d.all.items };
}

impl Downloaders {
    /// Of these jobs, of which nothing is done.
    pub fn new(alloc: Global, jobs: List<HubJob>) -> Result<Downloaders, NoMemory>
        ensures { IfOk result (λ made. states made ≡ map new_of_job jobs) }
    {
        let mut all = Vec::with_capacity(alloc, jobs.len())?;
        for job in jobs.into_vec() {
            let HubJob { device, plan } = job;
            all.push(Downloader::new(device, plan))?;
        }
        Ok(Downloaders { all })
    }

    /// What the step of a job's downloader would answer at this time.
    pub fn next(&self, job: u32, now: u64) -> Option<Did>
        ensures { result ≡ option_map (λ (s : DownloaderState). next_did s now) (downloader_of (states self.now) job) }
    {
        let downloader = &self.all[self.index_of(job)?];
        Some(downloader.next(now))
    }

    /// When the next wait of a job's downloader has passed.
    pub fn deadline(&self, job: u32) -> Option<u64>
        ensures { result ≡ option_and_then (λ (s : DownloaderState). phase_deadline s.phase) (downloader_of (states self.now) job) }
    {
        let downloader = &self.all[self.index_of(job)?];
        downloader.deadline()
    }

    /// How far a job has come.
    pub fn gone(&self, job: u32) -> Option<Gone>
        ensures { IfSome result (HasGone self.now job) }
    {
        let downloader = &self.all[self.index_of(job)?];
        downloader.gone()
    }

    /// The job's downloader does what is to be done at this time.
    pub fn step(&mut self, job: u32, now: u64)
        ensures { states self.new ≡ changed (λ (s : DownloaderState). stepped s now) job (states self.old) }
    {
        if let Some(index) = self.index_of(job) {
            let _ = self.all[index].step(now);
        }
    }

    /// The confirmation of what the job had put came.
    pub fn confirmed(&mut self, job: u32, error: bool, now: u64)
        ensures { states self.new ≡ changed (λ (s : DownloaderState). confirmed s error now) job (states self.old) }
    {
        if let Some(index) = self.index_of(job) {
            self.all[index].confirmed(error, now);
        }
    }

    /// A frame of the job's device came.
    pub fn take(&mut self, job: u32, tpdu: &[u8], now: u64)
        ensures { states self.new ≡ changed (λ (s : DownloaderState). taken s tpdu.now now) job (states self.old) }
    {
        if let Some(index) = self.index_of(job) {
            self.all[index].take(tpdu, now);
        }
    }

    /// The channel was lost for the job.
    pub fn lost(&mut self, job: u32)
        ensures { states self.new ≡ changed lost job (states self.old) }
    {
        if let Some(index) = self.index_of(job) {
            self.all[index].tunnel_lost();
        }
    }

    /// The place of a job's downloader; None exactly where there is no such job.
    fn index_of(&self, job: u32) -> Option<usize>
        ensures some { IfSome result (λ index. (1 ≤ job) × (index ≡ job - 1) × (index < length self.now)) }
        ensures none { result ≡ None → downloader_of (states self.now) job ≡ None }
    {
        let index = (job as usize).checked_sub(1)?;
        if index < self.all.len() {
            Some(index)
        } else {
            None
        }
    }
}
