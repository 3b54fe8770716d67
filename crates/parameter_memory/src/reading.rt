//! What a field of a parameter memory holds.

ghost use Rattle.std.specs.Prelude.{◌≡◌, ◌+◌, ◌*◌, ◌<◌, ◌≤◌, ◌^◌, length, take, drop, slice_index};
ghost use Rattle.knx_model.specs.Parameters.{bits_of, bits_value, field_value};

/// A bit, where bit 0 is the highest of the first octet.
#[tactic(auto, using(crate::proofs::Digits::bit_read))]
fn bit_at(memory: &[u8], bit: usize) -> u8
    requires { bit < 8 * length memory.now }
    ensures value { result ≡ slice_index (bits_of memory.now) bit }
    ensures small { result < 2 }
{
    memory[bit / 8] >> (7 - bit % 8) & 1
}

/// The number that bits write, the highest first.
fn number_at(memory: &[u8], at: usize, width: usize) -> u64
    requires near { at < 2 ^ 32 }
    requires short { width ≤ 32 }
    requires within { at + width ≤ 8 * length memory.now }
    ensures value { result ≡ bits_value (take width (drop at (bits_of memory.now))) }
    ensures small { result < 2 ^ width }
{
    let mut number = 0;
    for place in 0..width {
        number = number * 2 + u64::from(bit_at(memory, at + place));
    }
    number
}

/// The value that a field holds: its first bit, where bit 0 is the highest of the first octet, and its width of 1 to 32 bits.
#[tactic(auto, using(crate::proofs::Digits::holds_in_32), unfolding(knx_model::specs::Parameters::field_value))]
pub fn value_at(memory: &[u8], bit: u32, width: u8) -> u32
    requires some { 1 ≤ width }
    requires short { width ≤ 32 }
    requires within { bit + width ≤ 8 * length memory.now }
    ensures { result ≡ field_value memory.now bit width }
{
    number_at(memory, bit as usize, usize::from(width)) as u32
}
