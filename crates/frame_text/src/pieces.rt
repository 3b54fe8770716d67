//! The words that a line is made of, each put behind a space.

ghost use Rattle.std.specs.Prelude.{◌≡◌, ◌+◌, ◌<◌, ◌∷◌, [], ◌++◌, OnOk, codes};
ghost use Rattle.knx_model.specs.Apdu.{word};
ghost use Rattle.knx_model.specs.TextLines.{hex_octet, hex_text, octets_text};
ghost use Rattle.frame_text.specs.Spaced.{spaced};
ghost use Rattle.frame_text.specs.FrameText.{refusal_words};

use knx_model::{NoMemory, Octets, put_number_word, put_word};
use report_text::{put_digits, put_hex};
use std::alloc::Global;

/// Appends an octet.
pub fn put_octet(out: &mut Octets, octet: u8) -> Result<(), NoMemory>
    ensures { OnOk result (out.new ≡ out.old ++ 32 ∷ hex_octet octet) }
{
    out.push(b' ')?;
    put_digits(out, octet)
}

/// Appends a number of four hexadecimal digits.
pub fn put_hex_word(out: &mut Octets, number: u16) -> Result<(), NoMemory>
    ensures { OnOk result (out.new ≡ out.old ++ 32 ∷ hex_text (word number)) }
{
    let [high, below] = number.to_be_bytes();
    put_octet(out, high)?;
    put_digits(out, below)
}

/// Appends octets, or `-` for none.
pub fn put_octets(out: &mut Octets, octets: &[u8]) -> Result<(), NoMemory>
    ensures { OnOk result (out.new ≡ out.old ++ 32 ∷ octets_text octets.now) }
{
    out.push(b' ')?;
    put_hex(out, octets)
}

/// Appends a refusal's number and its word.
pub fn put_refusal(alloc: Global, out: &mut Octets, number: u64, why: &str) -> Result<(), NoMemory>
    ensures { OnOk result (out.new ≡ out.old ++ spaced (refusal_words number why.now)) }
{
    put_word(out, b"refused")?;
    put_number_word(alloc, out, number)?;
    put_word(out, why.as_bytes())
}
