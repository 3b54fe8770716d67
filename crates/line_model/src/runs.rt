//! Laws that show what the definitions allow: runs of the line, each a function without a body whose contract says what holds of the run.

ghost use Rattle.std.specs.Prelude.{◌≡◌, List, [], ◌∷◌, None, Some, option_map};
ghost use Rattle.knx_model.specs.Device.{NonVolatile, HasCapacities};
ghost use Rattle.knx_model.specs.DeviceState.{DeviceState};
ghost use Rattle.knx_model.specs.declared.script.ScriptWhat.TheVariants.{LoseUp, LoseDown, LoseTo, LoseFrom, RepeatUp, RepeatDown, RepeatTo, Cut, Worn, CloseAfter, Refuse, DropChannel};
ghost use Rattle.knx_model.specs.Cemi.{Written as cemi_octets};
ghost use Rattle.line_model.specs.ActedOnce.{in_channel};
ghost use Rattle.line_model.specs.Attempts.{attempts, Resting};
ghost use Rattle.line_model.specs.ClientView.{Open, Lost, channel};
ghost use Rattle.line_model.specs.Follows.{Follows};
ghost use Rattle.line_model.specs.Fresh.{IsFresh, Settled};
ghost use Rattle.line_model.specs.Headline.{IsDisciplined};
ghost use Rattle.line_model.specs.Legal.{MayHappen, IsLegal};
ghost use Rattle.line_model.specs.Moments.{moments, between};
ghost use Rattle.line_model.specs.OldStoppedOrNew.{RunsWhereDone};
ghost use Rattle.line_model.specs.Record.{Entry, placed, entries, record_of};
ghost use Rattle.line_model.specs.Renews.{RenewsRightly};
ghost use Rattle.line_model.specs.Runs.{device, begin, connecting, connected, whole, job, other_job, reading, nearly, load, loads, told_taken, told_done, told_refused, unheard, told_failed, nobody, turn, telegram_sent, told_sent, cut_off, torn, filling, worn, response_lost, comes_twice, second, quiet_until, to_device, request_lost, try_refused, response_twice, confirmation_twice, channel_dropped, connection_closed, answer_lost, acknowledged, heard_again, t_ack_heard, quiet_minute, beat_answered};
ghost use Rattle.line_model.specs.Sendings.{SendsRightly};
ghost use Rattle.line_model.specs.Told.{ToldTruly};
ghost use Rattle.line_model.specs.Tunnel.{Commissions};
ghost use Rattle.line_model.specs.Waiting.{TurnWaits, PollsSo};
ghost use Rattle.line_model.specs.World.{Renew, Up, replay};

/// A line with one device, whatever that keeps in its memories, is a fresh start, and settled.
pub fn a_line_begins()
    ensures fresh { (kept : NonVolatile) → HasCapacities kept → IsFresh (begin kept) }
    ensures settled { (kept : NonVolatile) → Settled Commissions (begin kept) }
{}

/// A session by which a descriptor is read is legal and follows the empty script; a hub that does it is disciplined, and tells the job done. Where
/// the job wants another descriptor, its operation 0 is told refused.
pub fn a_session_reads_the_descriptor()
    ensures legal { (kept : NonVolatile) → IsLegal Commissions (begin kept) whole }
    ensures follows { (kept : NonVolatile) → Follows [] Commissions (begin kept) whole }
    ensures disciplined { (kept : NonVolatile) → IsDisciplined (job ∷ []) [] 33 (placed (begin kept) whole) told_done }
    ensures refused { (kept : NonVolatile) → ToldTruly (other_job ∷ []) [] (placed (begin kept) whole) told_refused }
{}

/// A worker whose T_Connect has no confirmation waits, and a poll lasts 100 ms; once that is confirmed, it has an operation to send, and waits no more.
pub fn a_worker_waits_for_its_confirmation()
    ensures waits { (kept : NonVolatile) → TurnWaits (job ∷ []) [] told_taken (placed (begin kept) connecting) 5 0 1 0 }
    ensures polls { (kept : NonVolatile) → PollsSo (job ∷ []) [] told_taken (placed (begin kept) connecting) 5 0 None (λ k. 0) 100 }
    ensures goes_on { (kept : NonVolatile) → ¬ TurnWaits (job ∷ []) [] told_taken (placed (begin kept) connected) 11 0 1 0 }
{}

/// The last operation of a load, for a device to which all else is loaded: legal, undisturbed and disciplined; it is told done, and the device
/// runs the job's image.
pub fn a_load_ends_done()
    ensures legal { IsLegal Commissions (begin nearly) loads }
    ensures follows { Follows [] Commissions (begin nearly) loads }
    ensures disciplined { IsDisciplined (load ∷ []) [] 33 (placed (begin nearly) loads) told_done }
    ensures new { RunsWhereDone (load ∷ []) (begin nearly) loads told_done }
{}

/// A device that gets no T_Connect: the script's losses, three attempts and no fourth, and the job told failed by three signs.
pub fn a_job_fails_by_three_signs()
    ensures legal { (kept : NonVolatile) → IsLegal Commissions (begin kept) unheard }
    ensures follows { (kept : NonVolatile) → Follows (LoseTo device 1 ∷ LoseTo device 2 ∷ LoseTo device 3 ∷ []) Commissions (begin kept) unheard }
    ensures told { (kept : NonVolatile) → ToldTruly (job ∷ []) [] (placed (begin kept) unheard) told_failed }
    ensures spent { (kept : NonVolatile) → attempts device reading (between 4 25 (moments (placed (begin kept) unheard))) ≡ Resting 3 }
{}

/// A group telegram is put, confirmed and told sent.
pub fn a_telegram_is_sent()
    ensures legal { IsLegal Commissions nobody telegram_sent }
    ensures told { ToldTruly [] (turn ∷ []) (placed nobody telegram_sent) told_sent }
{}

/// A write in which power goes, and one over worn memory: each is legal, and is just what the script's line says; nothing that the client does comes
/// before power returns. Of the octets 01 and 02 worn memory keeps FE and FD.
pub fn writes_are_torn_and_worn()
    ensures torn { (kept : NonVolatile) → IsLegal Commissions (begin kept) torn }
    ensures cut { (kept : NonVolatile) → Follows (Cut device 1 1 ∷ []) Commissions (begin kept) torn }
    ensures at_once { (kept : NonVolatile) → ¬ Follows (Cut device 1 1 ∷ []) Commissions (begin kept) (Renew ∷ cut_off) }
    ensures worn { IsLegal Commissions (begin filling) worn }
    ensures changed { Follows (Worn device 1 ∷ []) Commissions (begin filling) worn }
    ensures complements { option_map (λ (d : DeviceState). d.kept.application.memory) ((replay (begin filling) worn).devices 0x1105) ≡ Some (254 ∷ 253 ∷ []) }
{}

/// A datagram that is lost, and a datagram and a frame that come twice: each is legal, and is just what the script's lines say; the request that
/// came twice is acted on once, and may not come a third time.
pub fn datagrams_are_lost_and_repeated()
    ensures lost { (kept : NonVolatile) → IsLegal Commissions (begin kept) response_lost }
    ensures never { (kept : NonVolatile) → Follows (LoseDown 1 ∷ []) Commissions (begin kept) response_lost }
    ensures twice { (kept : NonVolatile) → IsLegal Commissions (begin kept) comes_twice }
    ensures repeated { (kept : NonVolatile) → Follows (RepeatUp 2 ∷ RepeatTo device 1 ∷ []) Commissions (begin kept) comes_twice }
    ensures thrice { (kept : NonVolatile) → ¬ MayHappen Commissions (replay (begin kept) comes_twice) (Up 0) }
    ensures once { (kept : NonVolatile) → in_channel 0 (replay (begin kept) comes_twice).tunnel.gateway.acted ≡ cemi_octets (to_device (0x80 ∷ [])) ∷ [] }
{}

/// The gateway may get the frame again that a device sent last, and it waits for the client once more.
pub fn a_frame_comes_again_at_the_gateway()
    ensures legal { (kept : NonVolatile) → IsLegal Commissions (begin kept) heard_again }
    ensures waits { (kept : NonVolatile) → (replay (begin kept) heard_again).tunnel.gateway.waiting ≡ t_ack_heard ∷ [] }
    ensures before { (kept : NonVolatile) → (replay (begin kept) acknowledged).tunnel.gateway.waiting ≡ [] }
{}

/// Each of the other lines of a script has its event: a lost request, a refused try, a response that comes twice, a channel and a connection that
/// close, and an answer that is lost for the gateway.
pub fn the_other_lines_have_their_events()
    ensures loses_up { (kept : NonVolatile) → Follows (LoseUp 1 ∷ []) Commissions (begin kept) request_lost }
    ensures refuses { (kept : NonVolatile) → Follows (Refuse 1 0x24 ∷ []) Commissions (begin kept) try_refused }
    ensures repeats_down { (kept : NonVolatile) → Follows (RepeatDown 1 ∷ []) Commissions (begin kept) response_twice }
    ensures repeats_between_sendings { (kept : NonVolatile) → Follows (RepeatDown 3 ∷ []) Commissions (begin kept) confirmation_twice }
    ensures drops_channel { (kept : NonVolatile) → Follows (DropChannel 1 ∷ []) Commissions (begin kept) channel_dropped }
    ensures closes { (kept : NonVolatile) → Follows (CloseAfter device 1 ∷ []) Commissions (begin kept) connection_closed }
    ensures loses_from { (kept : NonVolatile) → Follows (LoseFrom device 1 ∷ []) Commissions (begin kept) answer_lost }
{}

/// The gateway closes the channel, and the client renews its endpoint and gets the next one.
pub fn a_channel_follows_another()
    ensures legal { (kept : NonVolatile) → IsLegal Commissions (begin kept) second }
    ensures renews { (kept : NonVolatile) → RenewsRightly (entries (placed (begin kept) second)) }
{}

/// A minute may pass over a settled line, and the heartbeat that is due then may be sent.
pub fn a_minute_passes()
    ensures follows { (kept : NonVolatile) → Follows [] Commissions (begin kept) quiet_minute }
    ensures sends { (kept : NonVolatile) → SendsRightly (record_of (begin kept) beat_answered) }
{}

/// Three heartbeats without answer: the channel is lost when 10,000 ms have passed after the third, and not a millisecond before.
pub fn a_channel_dies()
    ensures open { (l : List Entry) × (channel (quiet_until 190004) ≡ Open 1 l) }
    ensures lost { channel (quiet_until 190005) ≡ Lost 1 }
{}
