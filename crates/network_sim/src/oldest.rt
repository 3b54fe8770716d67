//! The oldest datagram of those that are kept, the youngest first.

ghost use Rattle.std.specs.Prelude.{◌≡◌, ℕ, ◌<◌, ◌≤◌, true, false, IfSome, IfNone, slice_get};
ghost use Rattle.network_sim.specs.Arriving.{goes_first, goes_once_more};
ghost use Rattle.network_sim.specs.Window.{at_sent, is_waiting};

use crate::kept::Sending;
use crate::place::Reach;
use circular_buffer::HeapCircularBuffer;

/// Whether the datagram of an age is there and may be delivered for the first time.
fn goes_first(kept: &HeapCircularBuffer<Sending>, age: usize, reach: Reach, made: u64) -> bool
    ensures { result ≡ at_sent (goes_first reach made) (slice_get kept.now.items age) }
{
    match kept.get(age) {
        Some(sending) => sending.goes_first(reach, made),
        None => false,
    }
}

/// Whether the datagram of an age is there and may be delivered for the second time.
pub fn goes_once_more(
    kept: &HeapCircularBuffer<Sending>,
    age: usize,
    reach: Reach,
    made: u64,
) -> bool
    ensures { result ≡ at_sent (goes_once_more reach made) (slice_get kept.now.items age) }
{
    match kept.get(age) {
        Some(sending) => sending.goes_once_more(reach, made),
        None => false,
    }
}

/// Whether the datagram of an age is there and was neither delivered nor lost.
fn is_waiting(kept: &HeapCircularBuffer<Sending>, age: usize) -> bool
    ensures { result ≡ at_sent is_waiting (slice_get kept.now.items age) }
{
    match kept.get(age) {
        Some(sending) => sending.is_waiting(),
        None => false,
    }
}

/// The age of the oldest one of the youngest so many that may be delivered for the first time.
pub fn oldest_first(
    kept: &HeapCircularBuffer<Sending>,
    most: usize,
    reach: Reach,
    made: u64,
) -> Option<usize>
    ensures found { IfSome result (λ age. at_sent (goes_first reach made) (slice_get kept.now.items age) ≡ true) }
    ensures within { IfSome result (λ age. age < most) }
    ensures none_older { IfSome result (λ age. (k : ℕ) → age < k → k < most → at_sent (goes_first reach made) (slice_get kept.now.items k) ≡ false) }
    ensures none { IfNone result ((k : ℕ) → k < most → at_sent (goes_first reach made) (slice_get kept.now.items k) ≡ false) }
{
    for age in (0..most).rev() {
        if goes_first(kept, age, reach, made) {
            return Some(age);
        }
    }
    None
}

/// How many of the youngest so many there are up to the oldest one that was neither delivered nor lost.
pub fn up_to_oldest_waiting(kept: &HeapCircularBuffer<Sending>, most: usize) -> usize
    ensures few { result ≤ most }
    ensures none_older { (k : ℕ) → result ≤ k → k < most → at_sent is_waiting (slice_get kept.now.items k) ≡ false }
{
    for age in (0..most).rev() {
        if is_waiting(kept, age) {
            return age + 1;
        }
    }
    0
}
