//! Which datagram is given next, and how it is given.

ghost use Rattle.std.specs.Prelude.{◌≡◌, length, min, option_copied, take};
ghost use Rattle.line_fixed.specs.Fixed.{next_of};

use knx_model::{Octets, front};

/// The greatest number of octets that a poll gives.
pub const LONGEST_GOT: usize = 512;

/// The datagram that is given next: those of the list in order, and then the last one for ever.
pub fn next_of<'a>(
    gives: &'a [Octets],
    last: &'a Option<Octets>,
    answered: usize,
) -> Option<&'a Octets>
    ensures { option_copied result ≡ next_of gives.now last.now answered }
{
    match gives.get(answered) {
        Some(octets) => Some(octets),
        None => last.as_ref(),
    }
}

/// Copies a datagram into a buffer, cut off after 512 octets, and answers how many there are.
pub fn copy_into(octets: &[u8], into: &mut [u8; LONGEST_GOT]) -> usize
    ensures len { result ≡ min 512 (length octets.now) }
    ensures octets { take result into.new ≡ take 512 octets.now }
{
    let cut = front(octets, LONGEST_GOT);
    into[..cut.len()].copy_from_slice(cut);
    cut.len()
}
