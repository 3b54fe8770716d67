//! The numbers that a project is made from.

ghost use Rattle.std.specs.Prelude.{◌≡◌, ◌/◌, ◌^◌};
ghost use Rattle.knx_gen.specs.Draws.{next_state};

/// What a state is multiplied by.
const FACTOR: u64 = 6_364_136_223_846_793_005;

/// What is added to the product.
const INCREMENT: u64 = 1_442_695_040_888_963_407;

/// The generator. Its state is the one that it begins with, or the one that its last number was drawn from.
#[derive(Drop)]
pub struct Numbers {
    pub state: u64,
}

impl Numbers {
    /// Draws the next number, of 31 bits.
    #[tactic(auto, using(crate::proofs::States::wrapped))]
    pub fn draw(&mut self) -> u32
        ensures state { self.new.state ≡ next_state self.old.state }
        ensures value { result ≡ self.new.state / 2 ^ 33 }
    {
        self.state = self.state.wrapping_mul(FACTOR).wrapping_add(INCREMENT);
        (self.state >> 33) as u32
    }
}
