//! Octets as a word of hexadecimal digits.

ghost use Rattle.std.specs.Prelude.{◌≡◌, ◌+◌, ◌*◌, ◌&&◌, ◌<◌, ◌∷◌, length, Some, None, IfOk, IfSome, IfNone, if◌then◌else◌};
ghost use Rattle.knx_model.specs.Values.{hex_octets};
ghost use Rattle.frame_text.specs.FrameText.{hex_word};

use knx_model::{NoMemory, Octets, digit_pair, octet_in};
use std::alloc::Global;

/// The most digits that a datagram's word has.
const MOST_DIGITS: usize = 1024;

/// The octets that hexadecimal digits write, two digits each.
#[tactic(auto, using(knx_model::proofs::Values::octets_go_on, knx_model::proofs::Values::octets_break, knx_model::proofs::Values::octets_end, knx_model::proofs::Values::octets_odd))]
fn octets_in(alloc: Global, digits: &[u8]) -> Result<Option<Octets>, NoMemory>
    ensures { IfOk result (λ octets. octets ≡ hex_octets digits.now) }
{
    let mut octets = Octets::new(alloc);
    let mut rest = digits;
    while let Some((high, below, after)) = digit_pair(rest) {
        let Some(octet) = octet_in(high, below) else {
            return Ok(None);
        };
        octets.push(octet)?;
        rest = after;
    }
    Ok(if rest.is_empty() { Some(octets) } else { None })
}

/// The octets of a hexadecimal word of 1 to 512 octets, in either case; none for another word.
#[tactic(auto, using(crate::proofs::HexWord::no_digits, crate::proofs::HexWord::too_many, crate::proofs::HexWord::within), unfolding(crate::specs::FrameText::hex_word))]
pub fn hex_in(alloc: Global, word: &[u8]) -> Result<Option<Octets>, NoMemory>
    ensures { IfOk result (λ octets. octets ≡ hex_word word.now) }
{
    if word.is_empty() || word.len() > MOST_DIGITS {
        return Ok(None);
    }
    octets_in(alloc, word)
}
