//! The laws of both plans.

ghost use Rattle.std.specs.Prelude.{◌≡◌, Some};
ghost use Rattle.knx_model.specs.declared.config.Image.{Image};
ghost use Rattle.knx_model.specs.declared.device.FrameSupport.{FrameSupport};
ghost use Rattle.knx_model.specs.declared.plan.PieceSize.{PieceSize};
ghost use Rattle.knx_model.specs.Device.{NonVolatile, Fits, HasCapacities, answer_in, runs};
ghost use Rattle.knx_model.specs.GoodPlan.{GoodPlan, Beginning, AnswersAll, kept_by_all, IsSendable};
ghost use Rattle.knx_model.specs.LoadPlan.{load_plan, check_plan, load_operations};
ghost use Rattle.knx_model.specs.Operations.{listed};
ghost use Rattle.knx_model.specs.Served.{IsServed};

/// The load plan of each image that fits is good, and so is what follows its first two operations, whatever was noted.
#[tactic(auto, using(crate::proofs::Plans::plan_good, crate::proofs::Plans::rest_good))]
pub fn each_plan_is_good()
    ensures good { (image : Image) → Fits image → GoodPlan (load_plan image) image }
    ensures whatever_is_noted { (image : Image) (size : PieceSize) → Fits image → GoodPlan (listed 2 (load_operations image size)) image }
{}

/// A device that nothing disturbs gives every expected answer to a load plan, and then runs the image, whichever frames it takes.
#[tactic(auto, using(crate::proofs::Plans::plan_answers, crate::proofs::Plans::plan_leaves))]
pub fn each_load_gets_through()
    ensures answers { (image : Image) → Fits image → (frames : FrameSupport) (nv : NonVolatile) → HasCapacities nv → AnswersAll (answer_in frames) (load_plan image) nv }
    ensures leaves { (image : Image) → Fits image → (frames : FrameSupport) (nv : NonVolatile) → HasCapacities nv → runs (kept_by_all (answer_in frames) (load_plan image) nv) ≡ Some image }
{}

/// A device gives every expected answer to a check plan exactly where it runs the image, and no beginning of it changes what it keeps.
#[tactic(auto, using(crate::proofs::Plans::check_runs, crate::proofs::Plans::check_answers, crate::proofs::Plans::check_stays))]
pub fn each_check_is_true()
    ensures runs { (image : Image) → Fits image → (frames : FrameSupport) (nv : NonVolatile) → HasCapacities nv → AnswersAll (answer_in frames) (check_plan image) nv → runs nv ≡ Some image }
    ensures answers { (image : Image) → Fits image → (frames : FrameSupport) (nv : NonVolatile) → HasCapacities nv → runs nv ≡ Some image → AnswersAll (answer_in frames) (check_plan image) nv }
    ensures stays { (image : Image) (frames : FrameSupport) (start end : NonVolatile) → Beginning (answer_in frames) (check_plan image) start end → end ≡ start }
{}

/// Each operation of either plan is an APDU that can be sent, and expects an answer exactly where its service has one.
#[tactic(auto, using(crate::proofs::Plans::load_sendable, crate::proofs::Plans::check_sendable))]
pub fn each_operation_can_be_sent()
    ensures load { (image : Image) → IsSendable (load_plan image) }
    ensures check { (image : Image) → IsSendable (check_plan image) }
{}

/// Each service of either plan fits into a frame that the device takes, and is answered exactly where its service has an answer, whatever the image is
/// and whatever the device keeps.
#[tactic(auto, using(crate::proofs::Serving::load_served, crate::proofs::Serving::check_served))]
pub fn each_plan_is_served()
    ensures load { (image : Image) (frames : FrameSupport) (nv : NonVolatile) → IsServed frames (load_plan image) nv }
    ensures check { (image : Image) (frames : FrameSupport) (nv : NonVolatile) → IsServed frames (check_plan image) nv }
{}
