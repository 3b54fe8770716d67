//! The cell, and its steps.
//!
//! Each step is one exchange on one word of a table or on its slot, and the slot is touched by nobody but who took it by such a step:
//!
//! ```text
//!             word 0: how many        word 1: 0 free,    the slot: Some(state)        what the seat knows
//!             entries are published   1 held             while the turn is free
//! take        .                       0 -> 1             taken by the seat            it has the turn; seen: the state's list
//!             .                       .                  the state comes out          .
//! give        .                       .                  Some(state) goes in          .
//!             n -> n + k              .                  .                            seen: the new list; k places more
//!             .                       1 -> 0             given back by the seat       it has no turn
//! look        read                    .                  .                            seen: all that is published
//! split       (read)                  .                  .                            one part less; the new seat's: that part
//! join        (read)                  .                  .                            the other's parts and places; then a look
//! ```
//!
//! A state is home before its list is published, and published before the turn is free: so who takes the turn finds the state whose list is published.
//! Word 2 counts the seats that sleep until the turn is free; where there is none, nobody has to be woken.

ghost use Rattle.std.specs.Prelude.{◌≡◌, ◌+◌, ◌≤◌, ℕ, true, false, All, ◌∷◌, [], length, IfOk, IfErr, Some};
ghost use Rattle.std.specs.List.Sorted.{IsStrictlyIncreasing};
ghost use mathlib.Core.List.{IsPrefix};
ghost use Rattle.turn_cell.specs.Seats.{first_seat, with_turn, given_back, with_seen, without_part, new_seat, joined_by, StandOnce};

use crate::logged::Logged;
use crate::rule::{Look, Part, Publish, Release, Rule, Sleep, Take};
use crate::seat::Seat;
use crate::view::View;
use atomic_table::{Refused, Table};
use knx_model::NoMemory;
use std::alloc::{AllocError, Global};
use std::marker::Model;
use std::snapshot::Snapshot;
use std::sync::Wait;

/// The word that counts the published entries.
const PUBLISHED: usize = 0;
/// The word that is `HELD` while a seat has the turn.
const TURN: usize = 1;
/// The word that counts the seats that sleep.
const SLEEPERS: usize = 2;

const FREE: u64 = 0;

const HELD: u64 = 1;
/// The slot of the state.
const STATE: usize = 0;

/// How often a seat looks whether the turn is free before it sleeps: for some ten microseconds, which most turns don't take.
const LOOKS: u32 = 10_000;

/// A cell: a state that one seat at a time has out.
#[derive(Drop)]
pub struct Turn<S: Logged> {
    table: Table<Option<S>, View<S::Entry>, Snapshot<S>, Rule, Global>,
}

impl<S: Logged> Model for Turn<S> {
    ghost use Rattle.std.specs.Prelude.{◌≡◌};
    ghost use Rattle.turn_cell.specs.Seats.{Cell};

    ghost Value = { Cell S.Entry };

    ghost view = { λ turn. record { id = turn.table.shared.table_id; opening = S.list turn.table.shared.key.value } };

    ghost invariant = { λ turn. (turn.table.shared.table_id.words ≡ 3) × (turn.table.shared.table_id.slots ≡ 1) };
}

/// The state that a table had no memory for.
fn handed_back<S: Drop>(refused: Refused<Option<S>, Global>) -> (S, NoMemory)
    requires { (state : S) × (refused.slots.items ≡ Some state ∷ []) }
    ensures { refused.slots.items ≡ Some result.0 ∷ [] }
{
    let Refused { mut slots } = refused;
    let Some(Some(state)) = slots.pop() else {
        unreachable!()
    };
    slots.destroy_empty();
    (state, NoMemory::from(AllocError))
}

impl<S: Logged> Turn<S> {
    /// A cell with this state, and its first seat, which has all 16 parts. A refusal hands the state back.
    pub fn new(alloc: Global, state: S) -> Result<(Turn<S>, Seat<S>), (S, NoMemory)>
        ensures opening { IfOk result (λ made. made.0.opening ≡ S.list state) }
        ensures seat { IfOk result (λ made. made.1 ≡ first_seat made.0) }
        ensures refused { IfErr result (λ back. back.0 ≡ state) }
    {
        let opening = Snapshot::of(&state);
        let count = state.entries();
        let mut slots = match Vec::with_capacity(alloc, 1) {
            Ok(slots) => slots,
            Err(refused) => return Err((state, NoMemory::from(refused))),
        };
        slots.push_reserved(Some(state));
        match Table::new(alloc, &[count, FREE, 0], slots, &opening) {
            Ok((table, inner)) => Ok((Turn { table }, Seat { inner })),
            Err(refused) => Err(handed_back(refused)),
        }
    }

    /// Waits for the turn and takes the state out. Its list begins with what the seat has seen.
    pub fn take<R: Wait>(&self, rt: &R, seat: &mut Seat<S>) -> S
        requires of { seat.old.cell ≡ self.now.id }
        requires free { seat.old.turn ≡ false }
        ensures begins { IsPrefix seat.old.seen (S.list result) }
        ensures seat { seat.new ≡ with_turn (S.list result) seat.old }
    {
        for _ in rt.forever() {
            let inner = &mut seat.inner;
            if self
                .table
                .shared
                .compare_exchange::<Take>(inner, TURN, FREE, HELD)
                == FREE
            {
                let Some(state) = self.table.shared.exchange(inner, STATE, None) else {
                    unreachable!()
                };
                return state;
            }
            if !self.is_free_soon() {
                self.table.shared.fetch_add::<Sleep>(inner, SLEEPERS, 1);
                self.table.shared.park(rt, TURN, HELD as u32);
                self.table.shared.fetch_sub::<Sleep>(inner, SLEEPERS, 1);
            }
        }
        unreachable!()
    }

    /// Whether the turn is free soon.
    fn is_free_soon(&self) -> bool {
        (0..LOOKS).any(|_| self.table.shared.peek(TURN) == FREE)
    }

    /// Gives a state back, and with it the turn. Its list begins with the list that was taken.
    pub fn give(&self, seat: &mut Seat<S>, state: S)
        requires of { seat.old.cell ≡ self.now.id }
        requires turn { seat.old.turn ≡ true }
        requires grown { IsPrefix seat.old.seen (S.list state) }
        ensures { seat.new ≡ given_back (S.list state) seat.old }
    {
        let count = state.entries();
        let inner = &mut seat.inner;
        let before = self.table.shared.exchange(inner, STATE, Some(state));
        self.table.shared.store::<Publish>(inner, PUBLISHED, count);
        self.table.shared.store::<Release>(inner, TURN, FREE);
        if self.table.shared.peek(SLEEPERS) > 0 {
            self.table.shared.wake_one(TURN);
        }
        let None = before else { unreachable!() };
    }

    /// How many entries are published. All of them are seen from now on.
    pub fn look(&self, seat: &mut Seat<S>) -> u64
        requires { seat.old.cell ≡ self.now.id }
        ensures begins { IsPrefix seat.old.seen seat.new.seen }
        ensures count { result + 1 ≡ length seat.new.seen }
        ensures held { seat.old.turn ≡ true → seat.new.seen ≡ seat.old.seen }
        ensures seat { seat.new ≡ with_seen seat.new.seen seat.old }
    {
        self.table.shared.load::<Look>(&mut seat.inner, PUBLISHED)
    }

    /// Gives one of the seat's parts to a new seat, which has seen what this one has.
    pub fn split(&self, seat: &mut Seat<S>) -> Seat<S>
        requires of { seat.old.cell ≡ self.now.id }
        requires two { 2 ≤ seat.old.parts }
        ensures left { seat.new ≡ without_part seat.old }
        ensures right { result ≡ new_seat seat.old }
    {
        Seat {
            inner: self.table.shared.split_seat::<Part>(&mut seat.inner),
        }
    }

    /// Takes the other seat in, with its parts and its places. What either has seen is seen.
    pub fn join(&self, seat: &mut Seat<S>, other: Seat<S>)
        requires of { seat.old.cell ≡ self.now.id }
        requires other_of { other.cell ≡ self.now.id }
        requires free { other.turn ≡ false }
        ensures begins { IsPrefix seat.old.seen seat.new.seen × IsPrefix other.seen seat.new.seen }
        ensures held { seat.old.turn ≡ true → seat.new.seen ≡ seat.old.seen }
        ensures seat { seat.new ≡ with_seen seat.new.seen (joined_by other seat.old) }
    {
        let Seat { inner: other } = other;
        let inner = &mut seat.inner;
        self.table.shared.join_seat::<Part>(inner, other);
        self.table.shared.load::<Look>(inner, PUBLISHED);
    }

    /// The state, with all that was given back: who has all parts knows that no other seat is left.
    pub fn close(self, seat: Seat<S>) -> S
        requires of { seat.cell ≡ self.id }
        requires all { seat.parts ≡ 16 }
        requires free { seat.turn ≡ false }
        ensures opening { IsPrefix self.opening (S.list result) }
        ensures seen { IsPrefix seat.seen (S.list result) }

        // Behind the opening's, each entry was given back once, and each seat's in the order in which it gave them back.
        ensures once { StandOnce (length self.opening) (length (S.list result)) (seat.mine ∷ seat.olds) }
        ensures order { All IsStrictlyIncreasing (seat.mine ∷ seat.olds) }
    {
        let Turn { table } = self;
        let Seat { inner } = seat;
        let mut closed = table.close_with(inner);
        let slot = closed.take(STATE);
        closed.free();
        let Some(state) = slot else { unreachable!() };
        state
    }
}
