//! What an end knows.

use std::collections::LinkedList;

/// What an end of a queue knows. Contracts and proofs alone see it, and no value of it is made.
pub struct View<T> {
    /// Whether it may push.
    pub pushes: bool,
    /// Whether it may pop.
    pub pops: bool,
    /// Where it may push, all that was pushed.
    pub put: LinkedList<T>,
    /// How many of them had been popped by the last push.
    pub popped: u64,
    /// Where it may pop, all that was popped.
    pub got: LinkedList<T>,
}
