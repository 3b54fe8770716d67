//! The rule of the queue, and what each call on it tells. These types stand for terms of the proofs: no value of them is made.

ghost use Rattle.telegram_router.specs.Relayed.{Relayed, first_view, left, right, both, spent, pushed, popped, waiting};

use crate::view::View;
use crossbeam_queue::protocol::{Join, Lesson, Outcome, Protocol, Split};

/// What holds between any two steps, of what the queue holds and of all views.
pub struct InOrder;

impl<T> Protocol<T, View<T>> for InOrder {
    ghost holds = { Relayed };

    ghost first = { first_view };
}

/// How the first end is cut into a feed and an ear, and how an ear takes a feed in.
pub struct Ends;

impl<T> Split<View<T>> for Ends {
    ghost left = { left };

    ghost right = { right };
}

impl<T> Join<View<T>> for Ends {
    ghost both = { both };

    ghost spent = { spent };
}

pub struct Push;

impl<T> Outcome<T, View<T>> for Push {
    ghost then = { pushed };
}

impl<T> Lesson<T, View<T>> for Push {
    ghost fact = { waiting };
}

pub struct Pop;

impl<T> Outcome<T, View<T>> for Pop {
    ghost then = { popped };
}

impl<T> Lesson<T, View<T>> for Pop {
    ghost fact = { waiting };
}
