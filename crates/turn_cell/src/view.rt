//! What a seat knows.

use std::collections::LinkedList;

/// What a seat knows of its cell. Contracts and proofs alone see it, and no value of it is made.
pub struct View<E> {
    /// Whether the seat has the turn.
    pub turn: bool,
    /// How many of the cell's 16 parts it has.
    pub parts: u64,
    /// The list of the cell's state, as far as the seat has seen it.
    pub seen: LinkedList<E>,
    /// What seats that joined this one had seen, until the next look.
    pub told: LinkedList<LinkedList<E>>,
    /// The places, in the state's list, of the entries that the seat gave back.
    pub mine: LinkedList<u64>,
    /// The places of the entries that the seats which joined it gave back, a list for each.
    pub olds: LinkedList<LinkedList<u64>>,
}
