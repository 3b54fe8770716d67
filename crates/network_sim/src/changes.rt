//! What becomes of one of the datagrams that are kept.

ghost use Rattle.std.specs.Prelude.{◌≡◌, slice_get};
ghost use Rattle.circular_buffer.specs.Buffer.{buffer};
ghost use Rattle.line_model.specs.Network.{OfSent, once_more, gone, changed_at};
ghost use Rattle.network_sim.specs.Window.{IsDeliverable};

use crate::kept::Sending;
use circular_buffer::HeapCircularBuffer;

/// The datagram of an age is delivered.
pub fn deliver_at(kept: &mut HeapCircularBuffer<Sending>, age: usize)
    requires { OfSent IsDeliverable (slice_get kept.old.items age) }
    ensures { kept.new ≡ buffer (changed_at age once_more kept.old.items) kept.old.capacity }
{
    if let Some(sending) = kept.get_mut(age) {
        sending.deliver();
    }
}

/// The datagram of an age is lost.
pub fn lose_at(kept: &mut HeapCircularBuffer<Sending>, age: usize)
    ensures { kept.new ≡ buffer (changed_at age gone kept.old.items) kept.old.capacity }
{
    if let Some(sending) = kept.get_mut(age) {
        sending.lose();
    }
}
