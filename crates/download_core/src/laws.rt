//! The laws of a downloader, each a function without a body whose contract is the law: it fits the record of a link, whatever that is, and what it
//! answers is what the record says.

ghost use Rattle.std.specs.Prelude.{ℕ, ◌≢◌};
ghost use Rattle.knx_model.specs.GoodPlan.{IsSendable};
ghost use Rattle.knx_model.specs.Plans.{Over};
ghost use Rattle.download_core.specs.declared.job_plan.JobPlan.{JobPlan};
ghost use Rattle.download_core.specs.JobPlans.{job_left};
ghost use Rattle.download_core.specs.Follows.{BeginsRightly, AsideFollows, ConfirmedFollows, OthersFollow, HeardFollows, LostFollows, SendsRightly, SentFollows, StepsStill, FlightsAreKnown};
ghost use Rattle.download_core.specs.Turns.{LogsTruly, TurnWaitsExactly, ConnectsAtRest};
ghost use Rattle.download_core.specs.Tells.{EndsTruly, EndsExactly, SendsExactly, WaitsExactly, DeadlineIsExact};

/// A new downloader fits the record of no moments. Each call keeps it fitting, with the moment that the call stands for: a confirmation, a frame of
/// its device, the loss of the channel, and a sending, which may be put. What is nothing to its device, and another's confirmation, change
/// nothing.
pub fn follows_the_record()
    ensures begins { BeginsRightly }
    ensures aside { AsideFollows }
    ensures confirmed { ConfirmedFollows }
    ensures others { OthersFollow }
    ensures heard { HeardFollows }
    ensures lost { LostFollows }
    ensures sends { SendsRightly }
    ensures sent { SentFollows }
    ensures still { StepsStill }
{}

/// Something of a downloader is in flight after a sending, and nothing after a confirmation or the loss of the channel; a frame of the device
/// begins no flight.
pub fn flights_are_known()
    ensures { FlightsAreKnown }
{}

/// What is told of a job's end is so by the record: it is done only where its plan went through in the last session, refused only where an answer
/// of the last session was wrong, and failed only where its three signs hold.
pub fn ends_are_told_truly()
    ensures { EndsTruly }
{}

/// An end is told, something is sent and nothing is done exactly where the record says so, and the deadline is that of the record.
pub fn steps_exactly()
    ensures ends { EndsExactly }
    ensures sends { SendsExactly }
    ensures waits { WaitsExactly }
    ensures deadline { DeadlineIsExact }
{}

/// The entry of the log that tells a job's end is true, and the turn of the worker that holds the job waits exactly where its downloader's step waits,
/// or gives something to be sent that can't be; nothing that came waits for it then. What it gives to be sent is a T_Connect exactly where no
/// attempt runs.
pub fn steps_are_turns()
    ensures logs { LogsTruly }
    ensures waits { TurnWaitsExactly }
    ensures connects { ConnectsAtRest }
{}

/// Each operation that is left of a job's plan can be sent, and expects an answer exactly where its service has one, whatever was noted; and every
/// plan of a job has one.
#[tactic(auto, using(crate::proofs::Sendable::job_sendable, crate::proofs::Sendable::job_begins))]
pub fn each_operation_can_be_sent()
    ensures sendable { (plan : JobPlan) (k : ℕ) → IsSendable (job_left plan k) }
    ensures begins { (plan : JobPlan) → job_left plan 0 ≢ Over }
{}
