//! A worker's turn.

ghost use Rattle.std.specs.Prelude.{◌≡◌, ◌≢◌, ◌↔◌, ℕ, Bool, ◌-◌, ◌≤◌, List, false, length, Some, None};
ghost use Rattle.download_core.specs.Attempt.{DownloaderState};
ghost use Rattle.download_core.specs.Steps.{stepped};
ghost use Rattle.line_model.specs.Reading.{ldata_in};
ghost use Rattle.line_model.specs.Log.{Job};
ghost use Rattle.hub_work.specs.Books.{AreJobsOf, held_at};
ghost use Rattle.hub_work.specs.Came.{waiting_at, TakesOneIn};
ghost use Rattle.hub_work.specs.Crew.{holdings, after_begun};
ghost use Rattle.hub_work.specs.Comes.{TookFollows, EndFollows, after_end};
ghost use Rattle.hub_work.specs.Downloaders.{changed, states};
ghost use Rattle.line_frames.specs.Requests.{request_with};
ghost use Rattle.line_model.specs.ClientEnd.{IsCemi};
ghost use Rattle.hub_work.specs.Turns.{Adds, HasFinished, IsEnd, WaitsFree, PutsCemi, PutsWhere, EndsJob, TurnSuits, TurnTold};
ghost use Rattle.hub_work.specs.Follows.{TurnFollows};
ghost use Rattle.hub_work.specs.Waits.{WaitsFor, WaitsExactly};
ghost use Rattle.hub_work.specs.Works.{KeepsBooks, SameRun, SameBooks, IsHolder, IsTaking};

use super::{Sender, Work};
use crate::answers::Turned;
use crate::crew::Held;
use crate::laws::of_a_downloader;
use crate::requests::to_device;
use device_reservation::Taken;
use download_core::Did;
use knx_model::{ApduOctets, Datagram};
use line_model::LogWhat;

/// What a worker's turn comes to.
#[derive(Drop)]
pub enum Turn {
    /// It did this.
    Did(Turned),
    /// A request with these cEMI octets is to be put.
    Puts(Datagram),
}

impl Work {
    /// A worker's turn at a time, when the link tells of so many events and the place in flight is free or not.
    pub fn turn(&mut self, worker: u8, now: u64, at: u64, has_place: bool) -> Turn
        requires worker { 1 ≤ worker }
        requires within { worker ≤ length self.old.crew }
        requires books { KeepsBooks at self.old }
        ensures suits { TurnSuits result (held_at self.old.crew (worker - 1)) }
        ensures takes_in { (1 ≤ waiting_at self.old.crew (worker - 1)) ↔ (result ≡ Turn.Did Turned.Moved) }
        ensures free { WaitsFree self.old.reservation result }
        ensures placed { PutsWhere has_place result }
        ensures cemi { PutsCemi result }
        ensures told { TurnTold at worker result self.old.journal.entries self.new.journal.entries }
        ensures run { SameRun self.old self.new }
        ensures books { KeepsBooks at self.new }
        ensures waits { WaitsExactly now at has_place worker self.old result }
        ensures follows { TurnFollows now at self.old self.new result }
        ensures came { TakesOneIn worker self.old.crew self.new.crew }
        ensures finished { result ≡ Turn.Did Turned.NoMore → (jobs : List Job) → AreJobsOf self.new.reservation.devices jobs → HasFinished worker jobs self.new.journal.entries }
    {
        match self.crew.held(worker) {
            None => self.takes_job(worker, at),
            Some(held) if held.came > 0 => {
                self.crew.takes_in(worker);
                Turn::Did(Turned::Moved)
            }
            Some(held) => self.works(worker, held, now, at, has_place),
        }
    }

    /// The worker takes the first job that is free.
    fn takes_job(&mut self, worker: u8, at: u64) -> Turn
        requires worker { 1 ≤ worker }
        requires within { worker ≤ length self.old.crew }
        requires empty { None ≡ held_at self.old.crew (worker - 1) }
        requires books { KeepsBooks at self.old }
        ensures suits { TurnSuits result None }
        ensures free { WaitsFree self.old.reservation result }
        ensures cemi { PutsCemi result }
        ensures placed { (b : Bool) → PutsWhere b result }
        ensures told { TurnTold at worker result self.old.journal.entries self.new.journal.entries }
        ensures run { SameRun self.old self.new }
        ensures books { KeepsBooks at self.new }
        ensures follows { (now : ℕ) → TurnFollows now at self.old self.new result }
        ensures came { TakesOneIn worker self.old.crew self.new.crew }
        ensures finished { result ≡ Turn.Did Turned.NoMore → (jobs : List Job) → AreJobsOf self.new.reservation.devices jobs → HasFinished worker jobs self.new.journal.entries }
    {
        match self.reservation.take(worker) {
            Taken::Job(job) => self.took(worker, job, at),
            Taken::Later => Turn::Did(Turned::Later),
            Taken::NoMore => Turn::Did(Turned::NoMore),
        }
    }

    /// It took this job.
    fn took(&mut self, worker: u8, job: u32, at: u64) -> Turn
        requires worker { 1 ≤ worker }
        requires within { worker ≤ length self.old.crew }
        requires empty { None ≡ held_at self.old.crew (worker - 1) }
        requires taking { IsTaking self.old at worker job }
        ensures took { result ≡ Turn.Did (Turned.Took job) }
        ensures placed { (b : Bool) → PutsWhere b result }
        ensures told { Adds at worker (LogWhat.Took job) self.old.journal.entries self.new.journal.entries }
        ensures run { SameRun self.old self.new }
        ensures books { KeepsBooks at self.new }
        ensures follows { TookFollows at self.old self.new }
        ensures came { TakesOneIn worker self.old.crew self.new.crew }
    {
        of_a_downloader();
        self.journal.add(at, worker, LogWhat::Took(job));
        let device = self.reservation.device_of(job);
        self.crew.takes(worker, job, device);
        Turn::Did(Turned::Took(job))
    }

    /// It goes on with its job.
    fn works(&mut self, worker: u8, held: Held, now: u64, at: u64, has_place: bool) -> Turn
        requires worker { 1 ≤ worker }
        requires holder { IsHolder self.old worker held }
        requires taken_in { held.came ≡ 0 }
        requires books { KeepsBooks at self.old }
        ensures suits { TurnSuits result (Some held) }
        ensures takes_none_in { result ≢ Turn.Did Turned.Moved }
        ensures free { WaitsFree self.old.reservation result }
        ensures placed { PutsWhere has_place result }
        ensures cemi { PutsCemi result }
        ensures told { TurnTold at worker result self.old.journal.entries self.new.journal.entries }
        ensures run { SameRun self.old self.new }
        ensures books { KeepsBooks at self.new }
        ensures waits { WaitsFor now at has_place self.old held 0 result }
        ensures follows { TurnFollows now at self.old self.new result }
        ensures came { TakesOneIn worker self.old.crew self.new.crew }
    {
        of_a_downloader();
        let Some(did) = self.downloaders.next(held.job, now) else {
            return Turn::Did(Turned::Wait);
        };
        match did {
            Did::Send(tpdu) if has_place && !tpdu.is_empty() => {
                Turn::Puts(self.puts(worker, held, tpdu, now))
            }
            Did::Send(_) => Turn::Did(Turned::Wait),
            Did::Wait => Turn::Did(Turned::Wait),
            Did::Done => self.tells_end(
                worker,
                held,
                at,
                LogWhat::Done(held.job),
                Turned::Done(held.job),
            ),
            Did::Failed { signs } => self.tells_end(
                worker,
                held,
                at,
                LogWhat::Failed(held.job, signs),
                Turned::Failed(held.job),
            ),
            Did::Refused { op, got, expected } => {
                let what = LogWhat::Refused {
                    job: held.job,
                    op,
                    got,
                    expected,
                };
                self.tells_end(worker, held, at, what, Turned::Refused(held.job))
            }
        }
    }

    /// It puts what its job sends next.
    fn puts(&mut self, worker: u8, held: Held, tpdu: ApduOctets, now: u64) -> Datagram
        requires some { 1 ≤ length tpdu }
        requires worker { 1 ≤ worker }
        ensures cemi { IsCemi result }
        ensures reads { ldata_in result ≡ Some (request_with false held.device.raw tpdu) }
        ensures downloaders { states self.new.downloaders ≡ changed (λ (s : DownloaderState). stepped s now) held.job (states self.old.downloaders) }
        ensures held { holdings self.new.crew ≡ after_begun (worker - 1) (holdings self.old.crew) }
        ensures came { (place : ℕ) → waiting_at self.new.crew place ≡ waiting_at self.old.crew place }
        ensures sender { self.new.sender ≡ Sender.Worker worker }
        ensures telegrams { self.new.telegrams ≡ self.old.telegrams }
        ensures books { SameBooks self.old self.new }
    {
        self.downloaders.step(held.job, now);
        self.crew.begins(worker);
        self.sender = Sender::Worker(worker);
        to_device(held.device, tpdu)
    }

    /// Its job has ended so.
    fn tells_end(&mut self, worker: u8, held: Held, at: u64, what: LogWhat, turned: Turned) -> Turn
        requires worker { 1 ≤ worker }
        requires holder { IsHolder self.old worker held }
        requires turned { IsEnd turned }
        requires what { EndsJob held.job what }
        requires taken_in { held.came ≡ 0 }
        requires books { KeepsBooks at self.old }
        ensures answer { result ≡ Turn.Did turned }
        ensures told { Adds at worker what self.old.journal.entries self.new.journal.entries }
        ensures run { SameRun self.old self.new }
        ensures books { KeepsBooks at self.new }
        ensures follows { EndFollows at what self.old self.new }
        ensures came { TakesOneIn worker self.old.crew self.new.crew }
    {
        self.journal.add(at, worker, what);
        self.reservation.finish(held.job);
        self.crew.ends(worker);
        self.forget(worker);
        Turn::Did(turned)
    }

    /// One job less is unfinished, and what its worker put is nobody's now.
    fn forget(&mut self, worker: u8)
        ensures reservation { self.new.reservation ≡ self.old.reservation }
        ensures downloaders { self.new.downloaders ≡ self.old.downloaders }
        ensures unfinished { self.new.unfinished ≡ self.old.unfinished - 1 }
        ensures closing { self.new.closing ≡ self.old.closing }
        ensures sender { self.new.sender ≡ after_end worker self.old.sender }
        ensures crew { self.new.crew ≡ self.old.crew }
        ensures journal { self.new.journal ≡ self.old.journal }
        ensures telegrams { self.new.telegrams ≡ self.old.telegrams }
    {
        self.unfinished = self.unfinished.saturating_sub(1);
        if self.sender == Sender::Worker(worker) {
            self.sender = Sender::Nobody;
        }
    }
}
