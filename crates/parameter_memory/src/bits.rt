//! Values written into a parameter memory. Bit 0 is the highest of the first octet.

ghost use Rattle.std.specs.Prelude.{◌≡◌, ◌+◌, ◌*◌, ◌<◌, ◌≤◌, ◌^◌, length, set};
ghost use Rattle.knx_model.specs.Parameters.{octet_bits, bits_of};
ghost use Rattle.parameter_memory.specs.Bits.{AreOctets, digit, overwrite, value_bits};

/// An octet with the bit at a place set or cleared; place 0 is the highest.
#[tactic(auto, using(crate::proofs::Digits::bit_is_set, crate::proofs::Digits::bit_is_cleared))]
fn with_bit(octet: u8, place: usize, is_set: bool) -> u8
    requires { place < 8 }
    ensures { octet_bits result ≡ set (octet_bits octet) place (digit is_set) }
{
    let mask = 1 << (7 - place);
    if is_set { octet | mask } else { octet & !mask }
}

/// Writes the bits of a value, the highest first.
pub fn write_value(memory: &mut [u8], at: usize, width: usize, value: u32)
    requires near { at < 2 ^ 32 }
    requires short { width ≤ 32 }
    requires within { at + width ≤ 8 * length memory.old }
    ensures octets { AreOctets memory.old → AreOctets memory.new }
    ensures bits { bits_of memory.new ≡ overwrite (bits_of memory.old) at (value_bits width value) }
{
    for place in 0..width {
        let bit = at + place;
        let is_set = value >> (width - place - 1) & 1 == 1;
        memory[bit / 8] = with_bit(memory[bit / 8], bit % 8, is_set);
    }
}
