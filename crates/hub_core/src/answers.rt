//! What the calls of a hub answer, but for a worker's turn.

use line_model::Indication;

/// What a poll did.
#[derive(Drop)]
pub enum Pumped {
    /// Nothing came that acts on anything, and nothing was due.
    Nothing,
    Moved,
    /// A group telegram was heard.
    Heard(Indication),
}

/// What a call for a group telegram did.
#[derive(Clone, Copy, Drop)]
pub enum GroupDid {
    /// Its request was put.
    Put,
    /// It isn't confirmed yet, or can't be put yet.
    Wait,
    Sent,
    /// The channel was lost before its confirmation.
    Lost,
}

/// How far the closing is.
#[derive(Drop)]
pub enum Finished {
    /// A group telegram was heard.
    Heard(Indication),
    Over,
    Going,
}
