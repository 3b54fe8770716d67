//! The check plan of an image, operation by operation.

ghost use Rattle.std.specs.Prelude.{◌≡◌, ◌+◌, ◌<◌, length, map, Some};
ghost use Rattle.std.specs.List.{slice_get};
ghost use Rattle.knx_model.specs.declared.plan.PieceSize.TheVariants.{Twelve};
ghost use Rattle.knx_model.specs.Device.{Fits};
ghost use Rattle.knx_model.specs.LoadPlan.{check_operations};
ghost use Rattle.download_plan.specs.Left.{check_left, check_count};
ghost use Rattle.download_plan.specs.Step.{op_of};

use crate::opening::{NOTED, read_descriptor, read_greatest_length, size_after};
use crate::operation::check_step;
use crate::place::{check_shares, list_of, piece_count};
use crate::step::check_step_at;
use knx_model::{Image, Op, PieceSize, PlanSource};
use std::marker::Model;

/// The operations that check whether a device runs an image.
#[derive(Drop)]
pub struct CheckPlan {
    image: Image,
    size: PieceSize,
}

impl Model for CheckPlan {
    ghost use Rattle.knx_model.specs.Device.{Fits};
    ghost use Rattle.download_plan.specs.Left.{Listening};

    ghost Value = { Listening };

    ghost view = { λ p. record { image = p.image; size = p.size } };

    ghost invariant = { λ p. Fits p.image };
}

impl CheckPlan {
    /// The plan of an image. It takes no memory.
    pub fn of(image: Image) -> CheckPlan
        requires { Fits image }
        ensures image { result.image ≡ image }
        ensures size { result.size ≡ Twelve }
    {
        CheckPlan {
            image,
            size: PieceSize::Twelve,
        }
    }

    /// The image that the plan checks. Its lists are within the capacities of their segments.
    pub fn image(&self) -> &Image
        ensures value { result.now ≡ self.now.image }
        ensures fits { Fits self.now.image }
    {
        &self.image
    }
}

/// The k-th operation after the two that come before all objects.
#[tactic(auto, using(crate::proofs::Places::check_op_at, crate::proofs::Places::check_within))]
fn object_op(image: &Image, size: PieceSize, k: u32) -> Op
    requires fits { Fits image.now }
    requires within { k < length (check_operations image.now size) }
    ensures { slice_get (map op_of (check_operations image.now size)) k ≡ Some result }
{
    let place = check_shares(image, size).place_at(k);
    let list = list_of(image, place.object);
    let step = check_step_at(place.number, piece_count(size, list));
    check_step(size, place.object, list, step)
}

impl PlanSource for CheckPlan {
    ghost use Rattle.download_plan.specs.Left.{check_left, check_count};

    ghost count = { check_count };

    ghost left = { check_left };

    #[tactic(auto, using(crate::proofs::Places::check_counted, crate::proofs::Lefts::check_over))]
    fn len(&self) -> u32 {
        2 + check_shares(&self.image, self.size).all()
    }

    #[tactic(auto, using(crate::proofs::Lefts::check_first, crate::proofs::Lefts::check_second, crate::proofs::Lefts::check_from, crate::proofs::Places::check_inside))]
    fn op(&self, k: u32) -> Op {
        match k {
            0 => read_descriptor(),
            NOTED => read_greatest_length(),
            _ => object_op(&self.image, self.size, k - 2),
        }
    }

    fn note(&mut self, k: u32, got: &[u8]) {
        self.size = size_after(k, self.size, got);
    }
}
