//! The signs of the attempts before the last one.

ghost use Rattle.std.specs.Prelude.{◌≡◌};
ghost use Rattle.download_core.specs.Attempt.{with_sign};

use knx_model::Sign;

/// How the attempts before the last one ended, the first one first.
#[derive(Clone, Copy, Drop)]
pub enum Signs {
    Zero,
    One(Sign),
    Two(Sign, Sign),
}

impl Signs {
    /// After one more attempt ended, of which there are two at most.
    pub fn with(self, sign: Sign) -> Signs
        ensures { result ≡ with_sign self sign }
    {
        match self {
            Signs::Zero => Signs::One(sign),
            Signs::One(first) => Signs::Two(first, sign),
            Signs::Two(first, second) => Signs::Two(first, second),
        }
    }
}
