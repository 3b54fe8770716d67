//! Numbers of two octets, the high one first, and the low six bits of a code.

ghost use Rattle.std.specs.Prelude.{◌≡◌, ◌+◌, ◌%◌, ◌≤◌, ◌++◌, length};
ghost use Rattle.knx_model.specs.Apdu.{low, most_octets, word as written};

use knx_model::ApduOctets;

/// The low six bits of a code: a short value, a count or a type.
pub fn low_six(code: u16) -> u8
    ensures { result ≡ low code }
{
    (code & 0x3F) as u8
}

/// Appends a number.
pub fn push_word(out: &mut ApduOctets, n: u16)
    requires { length out.old + 2 ≤ most_octets }
    ensures { out.new ≡ out.old ++ written n }
{
    out.extend(&n.to_be_bytes());
}
