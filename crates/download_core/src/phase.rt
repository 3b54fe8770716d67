//! Where the attempts of a job are.

ghost use Rattle.std.specs.Prelude.{◌≡◌, ℕ};
ghost use Rattle.knx_model.specs.Connection.{frame_in};
ghost use Rattle.knx_model.specs.Plans.{Plan};
ghost use Rattle.download_core.specs.JobPlans.{job_left};
ghost use Rattle.download_core.specs.Calls.{phase_confirmed, phase_heard, phase_lost, phase_deadline};
ghost use Rattle.download_core.specs.Going.{gone_in};
ghost use Rattle.download_core.specs.Keeps.{phase_of, KeepsPhase};

use crate::flight::Flight;
use crate::job_plan::JobPlan;
use crate::outcome::Outcome;
use crate::run::Run;
use knx_model::Sign;

/// Where the attempts of a job are. The drawing stands beside the definitions.
#[derive(Drop)]
pub enum Phase {
    /// No attempt began.
    Resting,
    Running(Run),
    /// A wrong T_ACK closed the connection, and T_Disconnect is to be put.
    Closing { flight: Flight, outcome: Outcome },
    /// T_Disconnect isn't confirmed.
    Leaving(Outcome),
    /// The last attempt has ended.
    Ended(Outcome),
}

impl Phase {
    /// After a confirmation.
    pub fn confirmed(self, error: bool, now: u64) -> Phase
        ensures next { (left : ℕ → Plan) → phase_of left result ≡ phase_confirmed (phase_of left self) error now }
        ensures keeps { (left : ℕ → Plan) → KeepsPhase left self → KeepsPhase left result }
    {
        match self {
            Phase::Running(run) => run.confirmed(error, now),
            Phase::Closing { outcome, .. } => Phase::Closing {
                flight: Flight::Nothing,
                outcome,
            },
            Phase::Leaving(outcome) => Phase::Ended(outcome),
            Phase::Resting | Phase::Ended(_) => self,
        }
    }

    /// After a frame of the device.
    pub fn heard(self, plan: &mut JobPlan, tpdu: &[u8], now: u64) -> Phase
        requires { KeepsPhase (job_left plan.old) self }
        ensures next { phase_of (job_left plan.new) result ≡ phase_heard (phase_of (job_left plan.old) self) (frame_in tpdu.now) now }
        ensures keeps { KeepsPhase (job_left plan.new) result }
        ensures plan { job_left plan.new 0 ≡ job_left plan.old 0 }
    {
        match self {
            Phase::Running(run) => run.heard(plan, tpdu, now),
            Phase::Resting | Phase::Closing { .. } | Phase::Leaving(_) | Phase::Ended(_) => self,
        }
    }

    /// After the channel was lost.
    pub fn lost(self, plan: &JobPlan) -> Phase
        ensures next { phase_of (job_left plan.now) result ≡ phase_lost (phase_of (job_left plan.now) self) }
        ensures keeps { KeepsPhase (job_left plan.now) result }
    {
        match self {
            Phase::Resting => Phase::Resting,
            Phase::Running(run) => Phase::Ended(run.comes_to(plan, Sign::TunnelLost)),
            Phase::Closing { outcome, .. } | Phase::Leaving(outcome) | Phase::Ended(outcome) => {
                Phase::Ended(outcome)
            }
        }
    }

    /// The nearest time at which a wait of the connection has passed.
    pub fn deadline(&self) -> Option<u64>
        ensures { (left : ℕ → Plan) → result ≡ phase_deadline (phase_of left self.now) }
    {
        match self {
            Phase::Running(run) => run.conn.deadline(),
            Phase::Resting | Phase::Closing { .. } | Phase::Leaving(_) | Phase::Ended(_) => None,
        }
    }

    /// How many operations are over in the attempt that runs, and 0 before the first.
    pub fn gone(&self) -> Option<u32>
        ensures { (left : ℕ → Plan) → result ≡ gone_in (phase_of left self.now) }
    {
        match self {
            Phase::Resting => Some(0),
            Phase::Running(run) => run.gone(),
            Phase::Closing { .. } | Phase::Leaving(_) | Phase::Ended(_) => None,
        }
    }
}
