//! How far an attempt has come in its plan.

ghost use Rattle.std.specs.Prelude.{◌≡◌};
ghost use Rattle.download_core.specs.Keeps.{last_sent};

use crate::question::Question;

/// How far an attempt has come in its plan.
#[derive(Drop)]
pub enum Position {
    /// The operations from this place on are still to be sent.
    Next(u32),
    /// The answer to this operation is awaited.
    AnswerOf(Question),
}

impl Position {
    /// The number of the operation sent last, 0 where none was.
    pub fn last(&self) -> u32
        ensures { result ≡ last_sent self.now }
    {
        match self {
            Position::Next(place) => place.saturating_sub(1),
            Position::AnswerOf(question) => question.place,
        }
    }
}
