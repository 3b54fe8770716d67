//! The law of downloads: what a device keeps while a client goes through plans, over a line that loses and repeats frames, with a device that loses
//! its power, at every moment of every run.
#![tactic(auto)]

ghost use Rattle.std.specs.Prelude.{◌≡◌, ◌++◌, List, Some, true};
ghost use Rattle.knx_model.specs.declared.address.IndAddr.{IndAddr as Address};
ghost use Rattle.knx_model.specs.declared.config.Image.{Image};
ghost use Rattle.knx_model.specs.Device.{Fits, HasCapacities, answer_in, runs};
ghost use Rattle.knx_model.specs.DeviceState.{DeviceState};
ghost use Rattle.knx_model.specs.GoodPlan.{GoodPlan, AnswersAll, IsSendable};
ghost use Rattle.knx_model.specs.LoadPlan.{load_plan};
ghost use Rattle.knx_model.specs.Plans.{Plan};
ghost use Rattle.session_law.specs.World.{fresh};
ghost use Rattle.session_law.specs.Events.{Event, replay, IsLegal, AtEveryMoment};
ghost use Rattle.load_law.specs.Download.{Follows, IsRight, IsDone, CanEndDone, AllGood, IsAmong, IsOnly, IsLoad, IsLoadOrCheck, AsksNothing};
ghost use Rattle.load_law.specs.Undisturbed.{undisturbed, AllFit};

/// While the client goes through good plans, the device is at every moment as it was, or stopped, or runs the image, whatever is lost, repeated, cut,
/// torn or worn; and it runs the image where an attempt is done. So with the plans of several jobs, and so with one good plan.
pub fn each_moment_is_right()
    ensures jobs { (plans : List Plan) (image : Image) (me : Address) (d : DeviceState) (events : List Event) → AllGood plans image → HasCapacities d.kept → IsLegal (fresh me d) events → Follows (IsAmong plans) (fresh me d) events
        → AtEveryMoment (λ past. IsRight (IsAmong plans) image d.kept (replay (fresh me d) past)) events }
    ensures good_plan { (plan : Plan) (image : Image) (me : Address) (d : DeviceState) (events : List Event) → GoodPlan plan image → IsSendable plan → IsLegal (fresh me d) events → Follows (IsOnly plan) (fresh me d) events
        → AtEveryMoment (λ past. IsRight (IsOnly plan) image d.kept (replay (fresh me d) past)) events }
{}

/// From the moment at which an attempt is done, what the device keeps stays until a service is sent.
pub fn what_is_done_stays()
    ensures jobs { (plans : List Plan) (plan : Plan) (image : Image) (me : Address) (d : DeviceState) (later earlier : List Event) → AllGood plans image → HasCapacities d.kept → IsAmong plans plan → IsLegal (fresh me d) (later ++ earlier)
        → Follows (IsAmong plans) (fresh me d) earlier → IsDone plan (replay (fresh me d) earlier) → AsksNothing later → (replay (fresh me d) (later ++ earlier)).device.kept ≡ (replay (fresh me d) earlier).device.kept }
    ensures good_plan { (plan : Plan) (image : Image) (me : Address) (d : DeviceState) (later earlier : List Event) → GoodPlan plan image → IsSendable plan → IsLegal (fresh me d) (later ++ earlier) → Follows (IsOnly plan) (fresh me d) earlier
        → IsDone plan (replay (fresh me d) earlier) → AsksNothing later → (replay (fresh me d) (later ++ earlier)).device.kept ≡ (replay (fresh me d) earlier).device.kept }
{}

/// Where a device with power gives every expected answer and takes every frame, the download that nothing disturbs may happen, follows the plan, and
/// ends done.
pub fn undisturbed_downloads_end_done()
    ensures legal { (plan : Plan) (me : Address) (d : DeviceState) → d.power ≡ true → IsSendable plan → AnswersAll (answer_in d.frames) plan d.kept → AllFit d.frames (answer_in d.frames) plan d.kept
        → IsLegal (fresh me d) (undisturbed (answer_in d.frames) plan d.kept) }
    ensures follows { (plan : Plan) (me : Address) (d : DeviceState) → d.power ≡ true → IsSendable plan → AnswersAll (answer_in d.frames) plan d.kept → AllFit d.frames (answer_in d.frames) plan d.kept
        → Follows (IsOnly plan) (fresh me d) (undisturbed (answer_in d.frames) plan d.kept) }
    ensures done { (plan : Plan) (me : Address) (d : DeviceState) → d.power ≡ true → IsSendable plan → AnswersAll (answer_in d.frames) plan d.kept → AllFit d.frames (answer_in d.frames) plan d.kept
        → IsDone plan (replay (fresh me d) (undisturbed (answer_in d.frames) plan d.kept)) }
{}

/// So loads of each image that fits leave a device right at every moment, and so do its loads and checks.
pub fn each_load_is_right()
    ensures loads { (image : Image) (me : Address) (d : DeviceState) (events : List Event) → Fits image → IsLegal (fresh me d) events → Follows (IsLoad image) (fresh me d) events
        → AtEveryMoment (λ past. IsRight (IsLoad image) image d.kept (replay (fresh me d) past)) events }
    ensures loads_and_checks { (image : Image) (me : Address) (d : DeviceState) (events : List Event) → Fits image → HasCapacities d.kept → IsLegal (fresh me d) events → Follows (IsLoadOrCheck image) (fresh me d) events
        → AtEveryMoment (λ past. IsRight (IsLoadOrCheck image) image d.kept (replay (fresh me d) past)) events }
{}

/// And whatever a device with power and memory holds, and whichever frames it takes, a load that nothing disturbs ends done, and the device runs the
/// image. So at every moment of every run, whatever was lost, cut or torn before, a load can still end done.
pub fn each_load_can_end_done()
    ensures legal { (image : Image) (me : Address) (d : DeviceState) → Fits image → HasCapacities d.kept → d.power ≡ true → IsLegal (fresh me d) (undisturbed (answer_in d.frames) (load_plan image) d.kept) }
    ensures follows { (image : Image) (me : Address) (d : DeviceState) → Fits image → HasCapacities d.kept → d.power ≡ true → Follows (IsLoad image) (fresh me d) (undisturbed (answer_in d.frames) (load_plan image) d.kept) }
    ensures done { (image : Image) (me : Address) (d : DeviceState) → Fits image → HasCapacities d.kept → d.power ≡ true → IsDone (load_plan image) (replay (fresh me d) (undisturbed (answer_in d.frames) (load_plan image) d.kept)) }
    ensures runs { (image : Image) (me : Address) (d : DeviceState) → Fits image → HasCapacities d.kept → d.power ≡ true → runs (replay (fresh me d) (undisturbed (answer_in d.frames) (load_plan image) d.kept)).device.kept ≡ Some image }
    ensures always { (image : Image) (me : Address) (d : DeviceState) (events : List Event) → Fits image → HasCapacities d.kept → IsLegal (fresh me d) events → Follows (IsLoadOrCheck image) (fresh me d) events
        → AtEveryMoment (λ past. CanEndDone (IsLoadOrCheck image) (load_plan image) (replay (fresh me d) past)) events }
{}
