//! The datagrams of one sender.

ghost use Rattle.std.specs.Prelude.{◌≡◌, ℕ, ◌-◌, ◌^◌, ◌<◌, ◌≤◌, ◌↔◌, List, [], ◌∷◌, IfOk, IfSome, IsTrue, Some, None, if◌then◌else◌, nat_lt, length, slice_get, option_copied, option_map};
ghost use Rattle.line_model.specs.Counts.{number_at};
ghost use Rattle.line_model.specs.Deliveries.{oldest};
ghost use Rattle.line_model.specs.Network.{Sent, OfSent, new_datagram, once_more, gone, changed_at, oldest_age};
ghost use Rattle.line_model.specs.Owed.{goes_again, passes_again};
ghost use Rattle.network_sim.specs.Arriving.{passes, AllOver};
ghost use Rattle.network_sim.specs.Readable.{readable};
ghost use Rattle.network_sim.specs.Window.{IsDeliverable, IsAlikeToScripts, CanTell, window_of, sent_too, changed_there, kept_age, age_while_kept, kept_of};

use crate::changes::{deliver_at, lose_at};
use crate::kept::Sending;
use crate::oldest::{goes_once_more, oldest_first, up_to_oldest_waiting};
use crate::place::Reach;
use circular_buffer::HeapCircularBuffer;
use knx_model::NoMemory;
use std::alloc::Global;
use std::marker::Model;

/// A datagram doesn't arrive any more once so many younger ones of its sender were sent.
const KEPT: usize = 128;

/// All datagrams of one sender, each named by its age: how many younger ones there are. How many were sent in all stands still at the greatest
/// number of 64 bits.
#[derive(Drop)]
pub struct Sendings {
    count: u64,
    /// The youngest ones, the youngest first.
    kept: HeapCircularBuffer<Sending>,
    /// How many of the youngest ones there are up to the oldest that was neither delivered nor lost.
    waiting: usize,
}

impl Model for Sendings {
    ghost use Rattle.std.specs.Prelude.{◌≡◌, ◌≤◌, ℕ, false, length, slice_get};
    ghost use Rattle.network_sim.specs.Window.{Window, at_sent, is_waiting};

    ghost Value = { Window };

    ghost view = { λ s. record { count = s.count; kept = s.kept.items } };

    ghost invariant = { λ s. (s.kept.capacity ≡ 128) × (length s.kept.items ≤ 128) × (s.waiting ≤ 128) × ((k : ℕ) → s.waiting ≤ k → at_sent is_waiting (slice_get s.kept.items k) ≡ false) };
}

impl Sendings {
    /// No datagrams. It takes the memory of all that will be kept.
    pub fn new(alloc: Global) -> Result<Sendings, NoMemory>
        ensures { IfOk result (λ made. made ≡ window_of []) }
    {
        let kept = HeapCircularBuffer::with_capacity(alloc, KEPT)?;
        Ok(Sendings {
            count: 0,
            kept,
            waiting: 0,
        })
    }

    /// A datagram is sent from an endpoint or to it, when the gateway has made so many channels. Of more than 300 octets those of the frame
    /// that they are read as are kept.
    pub fn push(&mut self, octets: &[u8], endpoint: u64, made: u64)
        ensures value { self.new ≡ sent_too (new_datagram (readable octets.now) endpoint made) self.old }
        ensures simulates { (sent : List Sent) → window_of sent ≡ self.old → window_of (new_datagram octets.now endpoint made ∷ sent) ≡ self.new }
    {
        let _ = self.kept.push_front(Sending::new(octets, endpoint, made));
        self.count = self.count.saturating_add(1);
        self.waiting = KEPT.min(self.waiting + 1);
    }

    /// How many were sent in all; the greatest number of 64 bits where there were more.
    pub fn count(&self) -> u64
        ensures { result ≡ self.now.count }
    {
        self.count
    }

    /// The datagram of an age, where it is kept.
    pub fn get(&self, age: usize) -> Option<&Sending>
        ensures value { option_copied result ≡ slice_get self.now.kept age }
        ensures simulates { (sent : List Sent) → window_of sent ≡ self.now → age < oldest_age → option_copied result ≡ option_map kept_of (slice_get sent age) }
        ensures older { oldest_age ≤ age → option_copied result ≡ None }
    {
        self.kept.get(age)
    }

    /// The age of the oldest datagram that may arrive and was neither delivered nor lost.
    pub fn next(&self, reach: Reach, made: u64) -> Option<usize>
        ensures value { result ≡ oldest (passes reach made) 0 self.now.kept }
        ensures simulates { (sent : List Sent) → window_of sent ≡ self.now → result ≡ oldest (passes reach made) 0 sent }
        ensures deliverable { IfSome result (λ age. OfSent IsDeliverable (slice_get self.now.kept age)) }
    {
        oldest_first(&self.kept, self.waiting, reach, made)
    }

    /// Whether each datagram was delivered, is lost or can't arrive any more.
    pub fn is_over(&self, reach: Reach, made: u64) -> bool
        ensures value { IsTrue result ↔ (oldest (passes reach made) 0 self.now.kept ≡ None) }
        ensures simulates { (sent : List Sent) → window_of sent ≡ self.now → (IsTrue result ↔ AllOver reach made sent) }
    {
        self.next(reach, made).is_none()
    }

    /// The number of the datagram of an age, from 1. Where too many were sent to count, it is greater than each number of a script.
    pub fn number_of(&self, age: usize) -> u64
        ensures value { result ≡ self.now.count - age }
        ensures simulates { (sent : List Sent) → window_of sent ≡ self.now → age < oldest_age → IsAlikeToScripts result (number_at sent age) }
        ensures exact { (sent : List Sent) → window_of sent ≡ self.now → length sent < 2 ^ 64 → result ≡ number_at sent age }
    {
        self.count.saturating_sub(age as u64)
    }

    /// The age of the datagram of a number, where it is kept.
    pub fn age_of(&self, number: u64) -> Option<usize>
        ensures value { result ≡ kept_age self.now number }
        ensures simulates { (sent : List Sent) → window_of sent ≡ self.now → CanTell number sent → result ≡ age_while_kept sent number }
    {
        kept_age(self.count, self.kept.len(), number)
    }

    /// Whether the datagram of a number was delivered once and may be delivered once more.
    pub fn may_go_again(&self, number: u64, reach: Reach, made: u64) -> bool
        ensures value { result ≡ goes_again (passes reach made) (self.now.count - number) (slice_get self.now.kept (self.now.count - number)) }
        ensures simulates { (sent : List Sent) → window_of sent ≡ self.now → CanTell number sent → result ≡ passes_again (passes reach made) sent number }
        ensures deliverable { IsTrue result → OfSent IsDeliverable (slice_get self.now.kept (self.now.count - number)) }
    {
        self.goes_again(number, reach, made)
    }

    /// The same, of what is kept.
    fn goes_again(&self, number: u64, reach: Reach, made: u64) -> bool
        ensures value { result ≡ goes_again (passes reach made) (self.now.count - number) (slice_get self.now.kept (self.now.count - number)) }
        ensures deliverable { IsTrue result → OfSent IsDeliverable (slice_get self.now.kept (self.now.count - number)) }
        ensures few { length self.now.kept ≤ 128 }
    {
        match self.age_of(number) {
            Some(age) => goes_once_more(&self.kept, age, reach, made),
            None => false,
        }
    }

    /// The datagram of an age is delivered: one that isn't lost and wasn't delivered twice.
    pub fn deliver(&mut self, age: usize)
        requires { OfSent IsDeliverable (slice_get self.old.kept age) }
        ensures value { self.new ≡ changed_there age once_more self.old }
        ensures simulates { (sent : List Sent) → window_of sent ≡ self.old → window_of (changed_at age once_more sent) ≡ self.new }
    {
        deliver_at(&mut self.kept, age);
        self.waiting = up_to_oldest_waiting(&self.kept, self.waiting);
    }

    /// The datagram of an age is lost.
    pub fn lose(&mut self, age: usize)
        ensures value { self.new ≡ changed_there age gone self.old }
        ensures simulates { (sent : List Sent) → window_of sent ≡ self.old → window_of (changed_at age gone sent) ≡ self.new }
    {
        lose_at(&mut self.kept, age);
        self.waiting = up_to_oldest_waiting(&self.kept, self.waiting);
    }
}

/// The age of the datagram of a number, where so many were sent and so many are kept.
fn kept_age(count: u64, kept: usize, number: u64) -> Option<usize>
    ensures { result ≡ (if nat_lt (count - number) kept then Some (count - number) else None) }
{
    let age = count.saturating_sub(number);
    if age < kept as u64 {
        Some(age as usize)
    } else {
        None
    }
}
