//! A seat at a cell.

use crate::logged::Logged;
use crate::view::View;
use std::marker::Model;

/// The right to a turn at one cell. It has no bytes, and only its holder's calls change what it knows.
#[derive(Drop)]
pub struct Seat<S: Logged> {
    pub(crate) inner: atomic_table::Seat<Option<S>, View<S::Entry>>,
}

impl<S: Logged> Model for Seat<S> {
    ghost use Rattle.turn_cell.specs.Seats.{Seated};

    ghost Value = { Seated S.Entry };

    ghost use Rattle.turn_cell.specs.Kept.{seated, IsAtRest};

    ghost view = { λ seat. seated seat.inner.table_id seat.inner.me.0 };

    ghost invariant = { λ seat. IsAtRest seat.inner.me };
}
