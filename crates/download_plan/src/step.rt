//! The steps of one object's loading and of its check, in their order.

ghost use Rattle.std.specs.Prelude.{◌≡◌, ◌+◌, ◌*◌, ◌<◌, ℕ, List as Seq, length, Some};
ghost use Rattle.std.specs.List.{slice_get};
ghost use Rattle.knx_model.specs.declared.loading.LoadableObject.{LoadableObject};
ghost use Rattle.knx_model.specs.declared.plan.PieceSize.{PieceSize};
ghost use Rattle.knx_model.specs.Operations.{loading, checking, piece_count};
ghost use Rattle.download_plan.specs.Step.{loading_step, checking_step, check_share, IsLoadStep, IsCheckStep};

/// A step of an object's loading. A piece has its number.
#[derive(Clone, Copy)]
pub enum LoadStep {
    Unload,
    Start,
    Allocate,
    ReadBase,
    WritePiece(u32),
    ReadPiece(u32),
    Complete,
}

/// A step of an object's check.
#[derive(Clone, Copy)]
pub enum CheckStep {
    ReadState,
    ReadBase,
    ReadPiece(u32),
    ReadEnd,
}

/// The k-th step of the loading of a list of this many pieces.
#[tactic(auto, unfolding(knx_model::specs::Operations::loading, knx_model::specs::Operations::filling))]
pub fn load_step_at(k: u32, pieces: u32) -> LoadStep
    requires { k < 5 + 2 * pieces }
    ensures step { IsLoadStep pieces result }
    ensures operation { (size : PieceSize) (o : LoadableObject) (list : Seq ℕ) → piece_count size list ≡ pieces → slice_get (loading size o list) k ≡ Some (loading_step size o list result) }
{
    match k {
        0 => LoadStep::Unload,
        1 => LoadStep::Start,
        2 => LoadStep::Allocate,
        3 => LoadStep::ReadBase,
        _ => load_piece_step(k - 4, pieces),
    }
}

#[tactic(auto, using(crate::proofs::Places::write_at, crate::proofs::Places::read_at, crate::proofs::Places::complete_at))]
fn load_piece_step(k: u32, pieces: u32) -> LoadStep
    requires { k < 1 + 2 * pieces }
    ensures step { IsLoadStep pieces result }
    ensures operation { (size : PieceSize) (o : LoadableObject) (list : Seq ℕ) → piece_count size list ≡ pieces → slice_get (loading size o list) (k + 4) ≡ Some (loading_step size o list result) }
{
    if k < pieces {
        LoadStep::WritePiece(k)
    } else if k - pieces < pieces {
        LoadStep::ReadPiece(k - pieces)
    } else {
        LoadStep::Complete
    }
}

/// The k-th step of the check of a list of this many pieces.
#[tactic(auto, unfolding(knx_model::specs::Operations::checking))]
pub fn check_step_at(k: u32, pieces: u32) -> CheckStep
    ensures step { (size : PieceSize) (o : LoadableObject) (list : Seq ℕ) → piece_count size list ≡ pieces → k < check_share size o list → IsCheckStep pieces o list result }
    ensures operation { (size : PieceSize) (o : LoadableObject) (list : Seq ℕ) → piece_count size list ≡ pieces → k < check_share size o list → slice_get (checking size o list) k ≡ Some (checking_step size o list result) }
{
    match k {
        0 => CheckStep::ReadState,
        1 => CheckStep::ReadBase,
        _ => check_piece_step(k - 2, pieces),
    }
}

#[tactic(auto, using(crate::proofs::Places::check_piece_at, crate::proofs::Places::check_end_at, crate::proofs::Places::ends_short))]
fn check_piece_step(k: u32, pieces: u32) -> CheckStep
    ensures step { (size : PieceSize) (o : LoadableObject) (list : Seq ℕ) → piece_count size list ≡ pieces → k + 2 < check_share size o list → IsCheckStep pieces o list result }
    ensures operation { (size : PieceSize) (o : LoadableObject) (list : Seq ℕ) → piece_count size list ≡ pieces → k + 2 < check_share size o list → slice_get (checking size o list) (k + 2) ≡ Some (checking_step size o list result) }
{
    if k < pieces {
        CheckStep::ReadPiece(k)
    } else {
        CheckStep::ReadEnd
    }
}
