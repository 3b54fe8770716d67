//! What is done, without any link: the jobs with their downloaders, the workers, the group telegrams, and the log.

mod closing;
mod deliver;
mod turn;

ghost use Rattle.std.specs.Prelude.{◌≡◌, ℕ, ◌-◌, ◌<◌, ◌≤◌, length, map, reverse, ◌/◌, ◌==◌, not, is_none, true, false, [], IfOk, IfSome, None, Some};
ghost use Rattle.hub_work.specs.declared.job.HubJob.{HubJob as Job};
ghost use Rattle.std.specs.List.{AllByRecursion, find};
ghost use Rattle.knx_model.specs.declared.address.IndAddr.{IndAddr as Address};
ghost use Rattle.line_model.specs.ClientEnd.{IsCemi};
ghost use Rattle.line_model.specs.Log.{IsNextTurn};
ghost use Rattle.line_model.specs.Waiting.{longest_poll, LastsUntil};
ghost use Rattle.hub_work.specs.Downloaders.{task_of_hub_job};
ghost use Rattle.hub_work.specs.Books.{held_at};
ghost use Rattle.hub_work.specs.Follows.{BeginsRightly, TelegramIsRight, TelegramFollows, TellingFollows};
ghost use Rattle.hub_work.specs.Going.{HasGone};
ghost use Rattle.hub_work.specs.Journals.{newest};
ghost use Rattle.hub_work.specs.Polls.{BusyRightly, does_something, deadline_at, end_of_closing, is_busy_at, IsDue, LooksOrLasts, PollsRightly, LastsOnceSent};
ghost use Rattle.hub_work.specs.Requests.{IsTurnInRange};
ghost use Rattle.hub_work.specs.Telegrams.{IsNextRequest, next_of};
ghost use Rattle.hub_work.specs.Turns.{Adds, TellsTurn};
ghost use Rattle.hub_work.specs.Waits.{HoldsBack};
ghost use Rattle.hub_work.specs.Works.{KeepsBooks, SameRun, SameBooks, BeginsWith, HasUnfinished, FindsElsewhere, tasks};

use crate::closing::Closing;
use crate::crew::{Crew, Held};
use crate::downloaders::Downloaders;
use crate::job::HubJob;
use crate::journal::Journal;
use crate::laws::of_a_downloader;
use crate::telegrams::{Stage, Telegrams};
use device_reservation::Jobs;
use download_core::{Did, Gone, each_operation_can_be_sent};
use knx_model::{Datagram, IndAddr, List, NoMemory};
use line_model::{GroupTurn, LONGEST_POLL_MS, LogEntry, LogWhat, until};
use std::alloc::Global;
pub use turn::Turn;

/// Who put the request that isn't confirmed.
#[derive(Clone, Copy, Drop, PartialEq, Eq)]
pub enum Sender {
    Nobody,
    Worker(u8),
    GroupThread,
}

/// What is done, without any link.
#[derive(Drop)]
pub struct Work {
    downloaders: Downloaders,
    reservation: Jobs,
    /// How many jobs have no end yet.
    unfinished: u32,
    crew: Crew,
    telegrams: Telegrams,
    sender: Sender,
    closing: Option<Closing>,
    journal: Journal,
}

impl Work {
    /// These jobs and telegrams, of which nothing is done, for so many workers.
    pub fn new(
        alloc: Global,
        jobs: List<HubJob>,
        groups: List<GroupTurn>,
        workers: u8,
    ) -> Result<Work, NoMemory>
        requires few_jobs { length jobs < 4294967296 }
        requires few_groups { length groups < 4294967296 }
        requires sendable { AllByRecursion IsTurnInRange groups }
        ensures begins { IfOk result (λ work. BeginsWith workers (map (λ (j : Job). j.device) jobs) groups work) }
        ensures books { IfOk result (λ work. (at : ℕ) → KeepsBooks at work) }
        ensures unbegun { IfOk result (λ work. work.closing ≡ None) }
        ensures tasks { IfOk result (λ work. tasks work ≡ map task_of_hub_job jobs) }
        ensures fits { IfOk result (BeginsRightly jobs) }
    {
        each_operation_can_be_sent();
        let room = jobs.len() + jobs.len() + groups.len();
        let journal = Journal::with_room(alloc, room)?;
        let crew = Crew::new(alloc, workers)?;
        let unfinished = jobs.len() as u32;
        let devices = devices_of(alloc, jobs.as_slice())?;
        let reservation = Jobs::new(alloc, &devices)?;
        let downloaders = Downloaders::new(alloc, jobs)?;
        Ok(Work {
            downloaders,
            reservation,
            unfinished,
            crew,
            telegrams: Telegrams::new(groups),
            sender: Sender::Nobody,
            closing: None,
            journal,
        })
    }

    /// The log, the oldest entry first.
    pub fn into_log(self) -> List<LogEntry>
        ensures { result ≡ reverse self.journal.entries }
    {
        let Work {
            downloaders: _,
            reservation: _,
            unfinished: _,
            crew: _,
            telegrams: _,
            sender: _,
            closing: _,
            journal,
        } = self;
        journal.into_list()
    }

    /// How many entries the log has.
    pub fn entries(&self) -> u64
        ensures count { result ≡ length self.now.journal.entries }
        ensures small { result < 18446744073709551615 }
    {
        self.journal.len() as u64
    }

    /// The newest entry of the log.
    pub fn newest(&self) -> Option<&LogEntry>
        ensures some { IfSome result (λ e. newest self.now.journal.entries ≡ Some e.now) }
        ensures none { result ≡ None → self.now.journal.entries ≡ [] }
    {
        self.journal.newest()
    }

    /// The job that a worker holds, from 1, and how far it has come.
    pub fn gone(&self, worker: u8) -> Option<(Held, Gone)>
        ensures from_1 { IfSome result (λ gone. 1 ≤ worker) }
        ensures held { IfSome result (λ gone. held_at self.now.crew (worker - 1) ≡ Some gone.0) }
        ensures gone { IfSome result (λ gone. HasGone self.now.downloaders gone.0.job gone.1) }
    {
        let held = self.crew.held(worker)?;
        let gone = self.downloaders.gone(held.job)?;
        Some((held, gone))
    }

    /// Whether a job has no end yet.
    pub fn is_unfinished(&self) -> bool
        ensures { HasUnfinished self.now result }
    {
        self.unfinished > 0
    }

    /// The device of the first job that isn't on the tunnel's line.
    pub fn elsewhere(&self, tunnel: IndAddr) -> Option<IndAddr>
        ensures { FindsElsewhere self.now tunnel result }
    {
        first_elsewhere(self.reservation.devices(), tunnel)
    }

    /// How far the next group telegram is.
    pub fn stage(&self) -> Stage
        ensures { result ≡ self.now.telegrams.stage }
    {
        self.telegrams.stage()
    }

    /// The octets of the next group telegram's request, where it may be put: one for after the jobs only once all have ended.
    pub fn telegram(&self) -> Option<Datagram>
        ensures cemi { IfSome result IsCemi }
        ensures next { IfSome result (IsNextRequest self.now.telegrams) }
        ensures right { IfSome result (TelegramIsRight self.now) }
        ensures held { HoldsBack self.now (is_none result) }
    {
        self.telegrams.request(self.unfinished > 0)
    }

    /// The next group telegram, from 1; None exactly where all are told.
    pub fn next_group(&self) -> Option<u32>
        ensures { result ≡ next_of self.now.telegrams }
    {
        self.telegrams.next()
    }

    /// The next group telegram was put.
    pub fn telegram_put(&mut self)
        ensures books { SameBooks self.old self.new }
        ensures follows { TelegramFollows self.old self.new }
        ensures crew { self.new.crew ≡ self.old.crew }
    {
        of_a_downloader();
        self.telegrams.put();
        self.sender = Sender::GroupThread;
    }

    /// The next group telegram is told.
    pub fn tell_telegram(&mut self, at: u64, k: u32, what: LogWhat)
        requires what { TellsTurn k what }
        requires next { IsNextTurn self.old.telegrams.turns self.old.journal.entries k }
        requires books { KeepsBooks at self.old }
        ensures told { Adds at 0 what self.old.journal.entries self.new.journal.entries }
        ensures run { SameRun self.old self.new }
        ensures books { KeepsBooks at self.new }
        ensures follows { TellingFollows at k what self.old self.new }
        ensures crew { self.new.crew ≡ self.old.crew }
    {
        self.journal.add(at, 0, what);
        self.telegrams.told();
    }

    /// How long a poll lasts at most, in milliseconds, where the place in flight is free or not: not at all where a worker has something to do, and else
    /// until the nearest deadline of a job that is held, or of the closing. The channel has deadlines of its own.
    pub fn wait_ms(&self, now: u64, has_place: bool) -> u32
        ensures looks { (place : ℕ) → is_busy_at self.now now has_place place ≡ true → result ≡ 0 }
        ensures waits { ((place : ℕ) → is_busy_at self.now now has_place place ≡ false) → LastsUntil longest_poll (IsDue self.now) now result }
        ensures rightly { PollsRightly now has_place self.now result }
        ensures sent { LastsOnceSent now has_place self.now result }
    {
        of_a_downloader();
        let mut wait = until(self.closing_deadline(), now, LONGEST_POLL_MS);
        for place in 0..self.crew.len() {
            wait = wait.min(self.wait_of(place, now, has_place));
        }
        wait
    }

    /// Whether a worker has something to do, where the place in flight is free or not: something came for his job that he hasn't taken in, or his job, which has
    /// begun, sends or ends next.
    pub fn is_busy(&self, now: u64, has_place: bool) -> bool
        ensures rightly { BusyRightly now has_place self.now result }
    {
        of_a_downloader();
        for place in 0..self.crew.len() {
            if self.is_busy_at(place, now, has_place) {
                return true;
            }
        }
        false
    }

    /// Whether the worker at a place, from 0, has something to do.
    fn is_busy_at(&self, place: usize, now: u64, has_place: bool) -> bool
        ensures { result ≡ is_busy_at self.now now has_place place }
    {
        let Some(held) = self.crew.at(place) else {
            return false;
        };
        let next = self.downloaders.next(held.job, now);
        held.came > 0 || held.begun && does_something(&next, has_place)
    }

    /// When the closing's wait has passed, where it has begun.
    fn closing_deadline(&self) -> Option<u64>
        ensures { result ≡ end_of_closing self.now.closing }
    {
        let closing = self.closing?;
        Some(closing.deadline())
    }

    /// How long a poll lasts at most for the worker at a place, from 0.
    fn wait_of(&self, place: usize, now: u64, has_place: bool) -> u32
        ensures { LooksOrLasts (is_busy_at self.now now has_place place) (deadline_at self.now place) now result }
    {
        if self.is_busy_at(place, now, has_place) {
            return 0;
        }
        until(self.deadline_at(place), now, LONGEST_POLL_MS)
    }

    /// The nearest deadline of the job that the worker at a place, from 0, holds.
    fn deadline_at(&self, place: usize) -> Option<u64>
        ensures { result ≡ deadline_at self.now place }
    {
        let held = self.crew.at(place)?;
        self.downloaders.deadline(held.job)
    }
}

/// Whether a turn in which this is next does something.
fn does_something(next: &Option<Did>, has_place: bool) -> bool
    ensures { result ≡ does_something next.now has_place }
{
    match next {
        None | Some(Did::Wait) => false,
        Some(Did::Send(_)) => has_place,
        Some(Did::Done | Did::Failed { .. } | Did::Refused { .. }) => true,
    }
}

/// The devices of the jobs.
fn devices_of(alloc: Global, jobs: &[HubJob]) -> Result<Vec<IndAddr>, NoMemory>
    ensures { IfOk result (λ devices. devices.items ≡ map (λ (j : Job). j.device) jobs.now) }
{
    let devices = jobs.iter().map(|job| job.device).collect(alloc)?;
    Ok(devices)
}

/// The first of the devices that isn't on the tunnel's line.
fn first_elsewhere(devices: &[IndAddr], tunnel: IndAddr) -> Option<IndAddr>
    ensures { result ≡ find (λ (d : Address). not (d.raw / 256 == tunnel.raw / 256)) devices.now }
{
    devices
        .iter()
        .copied()
        .find(|device| device.raw / 256 != tunnel.raw / 256)
}
