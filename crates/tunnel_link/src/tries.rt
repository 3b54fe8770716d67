//! The tries to get a channel.

ghost use Rattle.std.specs.Prelude.{◌≡◌};
ghost use Rattle.tunnel_link.specs.Kept.{one_more};

use line_model::Try;

/// How the tries since the last channel failed, the first one first.
#[derive(Clone, Copy, Drop)]
pub enum Tries {
    Zero,
    One(Try),
    Two(Try, Try),
    Three(Try, Try, Try),
}

impl Tries {
    /// After one more try failed; of three no more are made.
    pub fn with(self, failed: Try) -> Tries
        ensures { result ≡ one_more self failed }
    {
        match self {
            Tries::Zero => Tries::One(failed),
            Tries::One(first) => Tries::Two(first, failed),
            Tries::Two(first, second) => Tries::Three(first, second, failed),
            Tries::Three(first, second, third) => Tries::Three(first, second, third),
        }
    }
}
