//! The rule of a cell, and what each step on it tells. These types stand for terms of the proofs: no value of them is made.

ghost use Rattle.turn_cell.specs.Kept.{Kept, first_view, taken, published, released, untold, looked, left, right, both, spent};

use crate::logged::Logged;
use crate::view::View;
use atomic_table::{Join, Play, Split, TableRule};
use std::snapshot::Snapshot;

/// What holds between any two steps, of the words, the slot and all views.
pub struct Rule;

impl<S: Logged> TableRule<Option<S>, View<S::Entry>, Snapshot<S>> for Rule {
    ghost holds = { λ opening. Kept S.list (S.list opening.value) };

    ghost first = { λ opening. first_view (S.list opening.value) };
}

pub struct Take;

impl<S: Logged> Play<Option<S>, View<S::Entry>> for Take {
    ghost then = { taken S.list };
}

pub struct Publish;

impl<S: Logged> Play<Option<S>, View<S::Entry>> for Publish {
    ghost then = { published S.list };
}

pub struct Release;

impl<S: Logged> Play<Option<S>, View<S::Entry>> for Release {
    ghost then = { released };
}

pub struct Sleep;

impl<S: Logged> Play<Option<S>, View<S::Entry>> for Sleep {
    ghost then = { untold };
}

pub struct Look;

impl<S: Logged> Play<Option<S>, View<S::Entry>> for Look {
    ghost then = { looked };
}

/// How views are cut in two and put together.
pub struct Part;

impl<E> Split<View<E>> for Part {
    ghost left = { left };

    ghost right = { right };
}

impl<E> Join<View<E>> for Part {
    ghost both = { both };

    ghost spent = { spent };
}
