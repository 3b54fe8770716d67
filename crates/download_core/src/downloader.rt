//! The downloader of one job.

ghost use Rattle.std.specs.Prelude.{◌≡◌};
ghost use Rattle.download_core.specs.declared.signs.Signs.TheVariants.{Zero};
ghost use Rattle.download_core.specs.JobPlans.{job_count, job_left};
ghost use Rattle.download_core.specs.Attempt.{Resting};
ghost use Rattle.download_core.specs.Calls.{confirmed, taken, lost, phase_deadline};
ghost use Rattle.download_core.specs.Going.{TellsGone, gone_in};
ghost use Rattle.download_core.specs.Keeps.{state_of};
ghost use Rattle.download_core.specs.Steps.{next_did, closing_did, ended_did, failed_did, sent, stepped};

use crate::did::Did;
use crate::flight::Flight;
use crate::gone::Gone;
use crate::job_plan::JobPlan;
use crate::outcome::Outcome;
use crate::phase::Phase;
use crate::run::Run;
use crate::signs::Signs;
use knx_model::{IndAddr, PlanSource, Sign};
use std::marker::Model;
use std::mem;
use transport_conn::{connect, disconnect};

/// The downloader of one job: three attempts, each of which opens a connection and goes through the plan from its first operation on.
/// It takes no memory. Times are in milliseconds, and none is smaller than one that an earlier call had.
#[derive(Drop)]
pub struct Downloader {
    device: IndAddr,
    plan: JobPlan,
    signs: Signs,
    phase: Phase,
}

impl Model for Downloader {
    ghost use Rattle.download_core.specs.Keeps.{Known, KeepsPhase};

    ghost Value = { Known };

    ghost view = { λ d. record { device = d.device; plan = d.plan; signs = d.signs; phase = d.phase } };

    ghost use Rattle.download_core.specs.JobPlans.{job_left};

    ghost invariant = { λ d. KeepsPhase (job_left d.plan) d.phase };
}

impl Downloader {
    /// A job of a device of which nothing is done.
    pub fn new(device: IndAddr, plan: JobPlan) -> Downloader
        ensures { state_of result ≡ record { device = device; plan = job_left plan 0; signs = Zero; phase = Resting } }
    {
        Downloader {
            device,
            plan,
            signs: Signs::Zero,
            phase: Phase::Resting,
        }
    }

    /// Takes the confirmation of the frame that was put last.
    pub fn confirmed(&mut self, error: bool, now: u64)
        ensures { state_of self.new ≡ confirmed (state_of self.old) error now }
    {
        let phase = mem::replace(&mut self.phase, Phase::Resting);
        self.phase = phase.confirmed(error, now);
    }

    /// Takes the octets of a frame of the device.
    pub fn take(&mut self, tpdu: &[u8], now: u64)
        ensures { state_of self.new ≡ taken (state_of self.old) tpdu.now now }
    {
        let phase = mem::replace(&mut self.phase, Phase::Resting);
        self.phase = phase.heard(&mut self.plan, tpdu, now);
    }

    /// The channel was lost.
    pub fn tunnel_lost(&mut self)
        ensures { state_of self.new ≡ lost (state_of self.old) }
    {
        let phase = mem::replace(&mut self.phase, Phase::Resting);
        self.phase = phase.lost(&self.plan);
    }

    /// The time has come to `now`. Nothing is settled by that alone: a frame that is taken late still counts, until `step` puts the T_Disconnect
    /// that ends a silent attempt.
    pub fn expire(&mut self, _now: u64)
        ensures { state_of self.new ≡ state_of self.old }
    {}

    /// What `step` would answer at this time; nothing changes.
    pub fn next(&self, now: u64) -> Did
        ensures { result ≡ next_did (state_of self.now) now }
    {
        match &self.phase {
            Phase::Resting => Did::Send(connect()),
            Phase::Running(run) => run.did(&self.plan, now),
            Phase::Closing { flight, .. } => closing_did(*flight),
            Phase::Leaving(_) => Did::Wait,
            Phase::Ended(outcome) => ended_did(self.signs, outcome),
        }
    }

    /// Does what is to be done at this time.
    pub fn step(&mut self, now: u64) -> Did
        ensures answer { result ≡ next_did (state_of self.old) now }
        ensures next { state_of self.new ≡ stepped (state_of self.old) now }
    {
        let did = self.next(now);
        if matches!(did, Did::Send(_)) {
            self.sent(now);
        }
        did
    }

    /// The nearest time at which a wait of the connection has passed; None exactly where no such wait runs.
    pub fn deadline(&self) -> Option<u64>
        ensures { result ≡ phase_deadline (state_of self.now).phase }
    {
        self.phase.deadline()
    }

    /// How far the job has come in the attempt that runs, or before the first.
    pub fn gone(&self) -> Option<Gone>
        ensures { TellsGone self.now.device (gone_in (state_of self.now).phase) (job_count self.now.plan) result }
    {
        let all = self.plan.len();
        let done = self.phase.gone()?;
        if done > all {
            return None;
        }
        Some(Gone {
            device: self.device,
            done,
            all,
        })
    }

    /// What was to be sent was put.
    fn sent(&mut self, now: u64)
        ensures { state_of self.new ≡ sent (state_of self.old) now }
    {
        match mem::replace(&mut self.phase, Phase::Resting) {
            Phase::Resting => self.phase = Phase::Running(Run::begin(self.device)),
            Phase::Ended(Outcome::Failed(sign)) => {
                self.signs = self.signs.with(sign);
                self.phase = Phase::Running(Run::begin(self.device));
            }
            Phase::Running(run) => self.phase = run.sent(&self.plan, now),
            Phase::Closing { outcome, .. } => self.phase = Phase::Leaving(outcome),
            phase => self.phase = phase,
        }
    }
}

/// T_Disconnect, once nothing is in flight.
fn closing_did(flight: Flight) -> Did
    ensures { result ≡ closing_did flight }
{
    match flight {
        Flight::Nothing => Did::Send(disconnect()),
        Flight::Frame | Flight::Reply => Did::Wait,
    }
}

/// The job's end, or T_Connect of the next attempt.
fn ended_did(signs: Signs, outcome: &Outcome) -> Did
    ensures { result ≡ ended_did signs outcome.now }
{
    match outcome {
        Outcome::Failed(sign) => failed_did(signs, *sign),
        Outcome::Done => Did::Done,
        Outcome::Refused(wrong) => Did::Refused {
            op: wrong.op,
            got: wrong.got.copied(),
            expected: wrong.expected.copied(),
        },
    }
}

fn failed_did(signs: Signs, third: Sign) -> Did
    ensures { result ≡ failed_did signs third }
{
    match signs {
        Signs::Two(first, second) => Did::Failed {
            signs: [first, second, third],
        },
        Signs::Zero | Signs::One(_) => Did::Send(connect()),
    }
}
