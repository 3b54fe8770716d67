//! The load plan of an image, operation by operation.

ghost use Rattle.std.specs.Prelude.{◌≡◌, ◌+◌, ◌<◌, length, map, Some};
ghost use Rattle.std.specs.List.{slice_get};
ghost use Rattle.knx_model.specs.declared.plan.PieceSize.TheVariants.{Twelve};
ghost use Rattle.knx_model.specs.Device.{Fits};
ghost use Rattle.knx_model.specs.LoadPlan.{load_operations};
ghost use Rattle.download_plan.specs.Left.{load_left, load_count};
ghost use Rattle.download_plan.specs.Step.{op_of};

use crate::opening::{NOTED, read_descriptor, read_greatest_length, size_after};
use crate::operation::{load, load_step};
use crate::place::{list_of, load_shares, piece_count};
use crate::step::load_step_at;
use knx_model::{Image, LoadEvent, LoadState, LoadableObject, Op, PieceSize, PlanSource};
use std::marker::Model;

/// The operations that load an image.
#[derive(Drop)]
pub struct LoadPlan {
    image: Image,
    size: PieceSize,
}

impl Model for LoadPlan {
    ghost use Rattle.knx_model.specs.Device.{Fits};
    ghost use Rattle.download_plan.specs.Left.{Listening};

    ghost Value = { Listening };

    ghost view = { λ p. record { image = p.image; size = p.size } };

    ghost invariant = { λ p. Fits p.image };
}

impl LoadPlan {
    /// The plan of an image. It takes no memory.
    pub fn of(image: Image) -> LoadPlan
        requires { Fits image }
        ensures image { result.image ≡ image }
        ensures size { result.size ≡ Twelve }
    {
        LoadPlan {
            image,
            size: PieceSize::Twelve,
        }
    }

    /// The image that the plan loads. Its lists are within the capacities of their segments.
    pub fn image(&self) -> &Image
        ensures value { result.now ≡ self.now.image }
        ensures fits { Fits self.now.image }
    {
        &self.image
    }
}

/// The k-th operation after the unloading of the application.
#[tactic(auto, using(crate::proofs::Places::load_op_at, crate::proofs::Places::load_within))]
fn object_op(image: &Image, size: PieceSize, k: u32) -> Op
    requires fits { Fits image.now }
    requires within { k + 1 < length (load_operations image.now size) }
    ensures { slice_get (map op_of (load_operations image.now size)) (k + 1) ≡ Some result }
{
    let place = load_shares(image, size).place_at(k);
    let list = list_of(image, place.object);
    let step = load_step_at(place.number, piece_count(size, list));
    load_step(size, place.object, list, step)
}

impl PlanSource for LoadPlan {
    ghost use Rattle.download_plan.specs.Left.{load_left, load_count};

    ghost count = { load_count };

    ghost left = { load_left };

    #[tactic(auto, using(crate::proofs::Places::load_counted, crate::proofs::Lefts::load_over))]
    fn len(&self) -> u32 {
        3 + load_shares(&self.image, self.size).all()
    }

    #[tactic(auto, using(crate::proofs::Lefts::load_first, crate::proofs::Lefts::load_second, crate::proofs::Lefts::load_third, crate::proofs::Lefts::load_from, crate::proofs::Places::load_inside))]
    fn op(&self, k: u32) -> Op {
        match k {
            0 => read_descriptor(),
            NOTED => read_greatest_length(),
            2 => load(
                LoadableObject::Application,
                LoadEvent::Unload,
                LoadState::Unloaded,
            ),
            _ => object_op(&self.image, self.size, k - 3),
        }
    }

    fn note(&mut self, k: u32, got: &[u8]) {
        self.size = size_after(k, self.size, got);
    }
}
