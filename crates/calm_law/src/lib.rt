//! The law of undisturbed lines: where nothing is lost and the client loses no time, time passes only where nothing is awaited, and nothing fails.
#![tactic(auto)]

ghost use Rattle.std.specs.Prelude.{◌≡◌, ◌≤◌, ℕ, IfSome, List, [], ◌∷◌, false};
ghost use Rattle.std.specs.List.{AllByRecursion};
ghost use Rattle.knx_model.specs.declared.address.IndAddr.{IndAddr as Address};
ghost use Rattle.line_model.specs.Haste.{KeepsPaces};
ghost use Rattle.line_model.specs.Record.{placed, record_of, tunnel_record};
ghost use Rattle.line_model.specs.Renews.{RenewsRightly, AcknowledgesRightly};
ghost use Rattle.line_model.specs.Sendings.{SendsRightly};
ghost use Rattle.knx_model.specs.Device.{NonVolatile, HasCapacities};
ghost use Rattle.line_model.specs.Runs.{begin, job};
ghost use Rattle.calm_law.specs.CalmSession.{calm_session, told};
ghost use Rattle.line_model.specs.Tunnel.{TunnelEvent, Commissions, fresh, IsLegal};
ghost use Rattle.line_model.specs.Calm.{AreCalm as AreCalmEvents};
ghost use Rattle.line_model.specs.Faults.{first_tunnel, tries};
ghost use Rattle.line_model.specs.Follows.{Follows};
ghost use Rattle.line_model.specs.Fresh.{IsFresh};
ghost use Rattle.line_model.specs.Legal.{IsLegal as IsLegalOnLine};
ghost use Rattle.line_model.specs.Lines.{Script};
ghost use Rattle.line_model.specs.Log.{Job};
ghost use Rattle.line_model.specs.declared.group.GroupTurn.{GroupTurn};
ghost use Rattle.line_model.specs.declared.log.LogEntry.{LogEntry};
ghost use Rattle.line_model.specs.Undisturbed.{IsUndisturbed, HasDevices, IsServedJob, IsPrompt, IsUndisturbedRun, PromptWhereUndisturbed, RefusesRightly};
ghost use Rattle.line_model.specs.World.{World, Event, me};
ghost use Rattle.calm_law.specs.CalmTunnel.{AreCalm, PutsRightly, PassesIdly, KeepsItsChannel};
ghost use Rattle.calm_law.specs.CalmRun.{gateway, calm_run};
ghost use Rattle.calm_law.specs.CalmLine.{HaveShortValues, PassesIdlyOnLine};
ghost use Rattle.calm_law.specs.CalmEnds.{EndWell};
ghost use Rattle.calm_law.specs.CalmCounts.{ComeForJobs, ComeForRequests, ComeForWrites, CostsAtMost, EachBrings, EachHeard, check_cost, load_cost, some_reads};
ghost use Rattle.calm_law.specs.CalmDisturbances.{ends_met, lines_that_end};
ghost use Rattle.knx_model.specs.declared.config.Image.{Image};
ghost use Rattle.knx_model.specs.LoadPlan.{load_plan, check_plan};
ghost use Rattle.calm_law.specs.CalmChecks.{ChecksExactly, HaveOneImage, IsAnsweredRightly};
ghost use Rattle.line_model.specs.OldStoppedOrNew.{IsUntouched, RunsWhereDone, StaysDone};
ghost use Rattle.calm_law.specs.CalmJobs.{HavePower, IsPromptClient};

/// In a calm tunnel, over every order of its events, time passes only where nothing is awaited: no connect request, tunnelling request or heartbeat
/// of the client lacks its answer, and no request its confirmation. So no wait is reached, and the channel is lost only where the client asked for
/// its end.
pub fn time_passes_where_nothing_is_awaited()
    ensures idle { (me : Address) (events : List TunnelEvent) → IsLegal Commissions (fresh me) events → AreCalm (fresh me) events
        → RenewsRightly (tunnel_record (fresh me) events) → SendsRightly (tunnel_record (fresh me) events) → AcknowledgesRightly (tunnel_record (fresh me) events)
        → KeepsPaces (tunnel_record (fresh me) events) → PutsRightly (tunnel_record (fresh me) events)
        → PassesIdly (fresh me) events }
    ensures kept { (me : Address) (events : List TunnelEvent) → IsLegal Commissions (fresh me) events → AreCalm (fresh me) events
        → RenewsRightly (tunnel_record (fresh me) events) → SendsRightly (tunnel_record (fresh me) events) → AcknowledgesRightly (tunnel_record (fresh me) events)
        → KeepsPaces (tunnel_record (fresh me) events) → PutsRightly (tunnel_record (fresh me) events)
        → KeepsItsChannel (tunnel_record (fresh me) events) }
{}

/// There is such a run: a frame goes over the bus and is confirmed, and then time passes.
#[tactic(auto, using(crate::proofs::Example::legal, crate::proofs::Example::calm, crate::proofs::Example::renews, crate::proofs::Example::sends, crate::proofs::Example::acknowledges, crate::proofs::Example::paces, crate::proofs::Example::puts))]
pub fn a_frame_is_confirmed_in_a_calm_tunnel()
    ensures legal { IsLegal Commissions (fresh gateway) calm_run }
    ensures calm { AreCalm (fresh gateway) calm_run }
    ensures renews { RenewsRightly (tunnel_record (fresh gateway) calm_run) }
    ensures sends { SendsRightly (tunnel_record (fresh gateway) calm_run) }
    ensures acknowledges { AcknowledgesRightly (tunnel_record (fresh gateway) calm_run) }
    ensures paces { KeepsPaces (tunnel_record (fresh gateway) calm_run) }
    ensures puts { PutsRightly (tunnel_record (fresh gateway) calm_run) }
{}

/// On the whole line, where each value that a device holds at the beginning fits into a response, time passes in the same way only where the channel
/// awaits nothing.
pub fn time_passes_where_nothing_is_awaited_on_the_line()
    ensures idle { (start : World) (events : List Event) → IsFresh start → IsLegalOnLine Commissions start events → AreCalmEvents start events → HaveShortValues start
        → RenewsRightly (record_of start events) → SendsRightly (record_of start events) → AcknowledgesRightly (record_of start events) → KeepsPaces (record_of start events) → PutsRightly (record_of start events)
        → PassesIdlyOnLine start events }
    ensures kept { (start : World) (events : List Event) → IsFresh start → IsLegalOnLine Commissions start events → AreCalmEvents start events → HaveShortValues start
        → RenewsRightly (record_of start events) → SendsRightly (record_of start events) → AcknowledgesRightly (record_of start events) → KeepsPaces (record_of start events) → PutsRightly (record_of start events)
        → KeepsItsChannel (record_of start events) }
{}

/// And until the client asks its channel to end, it gets no more datagrams there than these, the answers to its heartbeats aside: the connect response, for each
/// request that it put the acknowledgement and the confirmation, and one for each frame of a device.
pub fn datagrams_come_for_requests_alone()
    ensures { (start : World) (events : List Event) → IsFresh start → IsLegalOnLine Commissions start events → AreCalmEvents start events → HaveShortValues start
        → RenewsRightly (record_of start events) → SendsRightly (record_of start events) → AcknowledgesRightly (record_of start events) → KeepsPaces (record_of start events) → PutsRightly (record_of start events)
        → ComeForRequests (record_of start events) }
{}

/// What the plan of a load and that of a check bring at most, whatever is answered, by the lengths of the image's lists.
pub fn plans_cost_by_their_lists()
    ensures loads { (image : Image) → CostsAtMost (load_plan image) (load_cost image) }
    ensures checks { (image : Image) → CostsAtMost (check_plan image) (check_cost image) }
{}

/// Where events follow a script that disturbs nothing, all of them are calm.
pub fn undisturbing_scripts_are_calm()
    ensures { (script : Script) (start : World) (events : List Event) → IsUndisturbed script → IsLegalOnLine Commissions start events → Follows script Commissions start events → AreCalmEvents start events }
{}

/// However a run goes, it reaches no more places at which a line of its script can end an attempt of a device than there are such lines: none ends two.
pub fn each_line_ends_one_attempt()
    ensures { (device : ℕ) (script : Script) (start : World) (events : List Event) → ends_met device script start events ≤ lines_that_end device script }
{}

/// On a calm line whose client is safe and loses no time, where each device has power and values that fit into a response, and those of the jobs are
/// there and serve their plans, time passes only where nothing is awaited and no job that is held has begun; and no job fails and no group telegram
/// is lost. So it is over every order of the events, with any number of workers. A job is refused only where its device, with what it kept when the
/// job was taken, doesn't answer the whole plan as wanted. So each job that is over was told done or refused, and one that a device answers wholly,
/// whatever it keeps, was told done; and none brought more datagrams than its plan does, and
/// frames of a device are taken only while a job of it is held: so until the channel is asked to end, all the jobs together bring no more than their plans do.
/// Each group telegram is put at most once; and where none of them asks for a value, no other frame of a device comes.
/// And no try to get a channel fails.
pub fn nothing_fails_on_a_calm_line()
    ensures prompt { (jobs : List Job) (turns : List GroupTurn) (start : World) (events : List Event) (log : List LogEntry) → AllByRecursion IsServedJob jobs → HasDevices jobs start → HavePower start
        → IsPromptClient jobs turns start events log → AreCalmEvents start events → HaveShortValues start → IsPrompt jobs start log events }
    ensures refuses { (jobs : List Job) (turns : List GroupTurn) (start : World) (events : List Event) (log : List LogEntry) → AllByRecursion IsServedJob jobs → HasDevices jobs start → HavePower start
        → IsPromptClient jobs turns start events log → AreCalmEvents start events → HaveShortValues start → RefusesRightly jobs start events log }
    ensures ended { (jobs : List Job) (turns : List GroupTurn) (start : World) (events : List Event) (log : List LogEntry) → AllByRecursion IsServedJob jobs → HasDevices jobs start → HavePower start
        → IsPromptClient jobs turns start events log → AreCalmEvents start events → HaveShortValues start → EndWell jobs log }
    ensures brings { (jobs : List Job) (turns : List GroupTurn) (start : World) (events : List Event) (log : List LogEntry) → AllByRecursion IsServedJob jobs → HasDevices jobs start → HavePower start
        → IsPromptClient jobs turns start events log → AreCalmEvents start events → HaveShortValues start → EachBrings jobs (placed start events) log }
    ensures heard { (jobs : List Job) (turns : List GroupTurn) (start : World) (events : List Event) (log : List LogEntry) → AllByRecursion IsServedJob jobs → HasDevices jobs start → HavePower start
        → IsPromptClient jobs turns start events log → AreCalmEvents start events → HaveShortValues start → EachHeard jobs start log (placed start events) }
    ensures shared { (jobs : List Job) (turns : List GroupTurn) (start : World) (events : List Event) (log : List LogEntry) → AllByRecursion IsServedJob jobs → HasDevices jobs start → HavePower start
        → IsPromptClient jobs turns start events log → AreCalmEvents start events → HaveShortValues start → ComeForJobs jobs start (record_of start events) }
    ensures unread { (jobs : List Job) (turns : List GroupTurn) (start : World) (events : List Event) (log : List LogEntry) → AllByRecursion IsServedJob jobs → HasDevices jobs start → HavePower start
        → IsPromptClient jobs turns start events log → AreCalmEvents start events → HaveShortValues start → some_reads turns ≡ false → ComeForWrites jobs turns (record_of start events) }
    ensures reached { (jobs : List Job) (turns : List GroupTurn) (start : World) (events : List Event) (log : List LogEntry) → AllByRecursion IsServedJob jobs → HasDevices jobs start → HavePower start
        → IsPromptClient jobs turns start events log → AreCalmEvents start events → HaveShortValues start → tries (record_of start events) ≡ [] }
{}

/// On every line that begins at rest, whatever is lost, repeated or late, the tunnel's address that the first channel's connect response tells is the
/// gateway's own.
pub fn the_gateway_tells_its_own_address()
    ensures { (start : World) (events : List Event) → IsFresh start → IsLegalOnLine Commissions start events → IfSome (first_tunnel (record_of start events)) (λ tunnel. tunnel ≡ me start) }
{}

/// On a calm line each check that is over was told done exactly where a job before it loads its device, or its device began with the image, and else it was told
/// refused: if each device answers each load wholly, and each check of the image that it runs, and the jobs of a device have one image. That a device is
/// untouched before its first load is taken and stays as it is from `done` on, and that what was told done runs, is what the line's law says of good jobs.
pub fn each_check_is_exact()
    ensures { (jobs : List Job) (turns : List GroupTurn) (start : World) (events : List Event) (log : List LogEntry) → AllByRecursion IsServedJob jobs → HasDevices jobs start → HavePower start → IsPromptClient jobs turns start events log → AreCalmEvents start events
        → HaveShortValues start → IsUntouched jobs start events log → StaysDone jobs start events log → RunsWhereDone jobs start events log → AllByRecursion IsAnsweredRightly jobs → HaveOneImage jobs → ChecksExactly jobs start log }
{}

/// What the law of calm lines says, of a run that follows a script which disturbs nothing, whichever it is.
pub fn undisturbed_runs_are_prompt()
    ensures prompt { (jobs : List Job) (turns : List GroupTurn) (start : World) (events : List Event) (log : List LogEntry) → HavePower start → IsPromptClient jobs turns start events log → HaveShortValues start → PromptWhereUndisturbed jobs start log events }
    ensures refuses { (jobs : List Job) (turns : List GroupTurn) (start : World) (events : List Event) (log : List LogEntry) (script : Script) → IsUndisturbedRun script jobs start events → HavePower start → IsPromptClient jobs turns start events log → HaveShortValues start
        → RefusesRightly jobs start events log }
    ensures ended { (jobs : List Job) (turns : List GroupTurn) (start : World) (events : List Event) (log : List LogEntry) (script : Script) → IsUndisturbedRun script jobs start events → HavePower start → IsPromptClient jobs turns start events log → HaveShortValues start
        → EndWell jobs log }
{}

/// There is such a run: a job reads the descriptor of its device, and its end is told once its session has ended.
pub fn a_job_is_done_on_a_calm_line()
    ensures served { AllByRecursion IsServedJob (job ∷ []) }
    ensures devices { (kept : NonVolatile) → HasDevices (job ∷ []) (begin kept) }
    ensures power { (kept : NonVolatile) → HavePower (begin kept) }
    ensures client { (kept : NonVolatile) → HasCapacities kept → IsPromptClient (job ∷ []) [] (begin kept) calm_session told }
    ensures calm { (kept : NonVolatile) → AreCalmEvents (begin kept) calm_session }
    ensures values { (kept : NonVolatile) → HaveShortValues (begin kept) }
{}
