//! Words that are group values.

ghost use Rattle.std.specs.Prelude.{◌≡◌, ℕ, List, ◌↔◌, ◌+◌, ◌*◌, ◌&&◌, ◌<◌, ◌≤◌, ◌∷◌, length, Some, None, IfSome, IfNone, if◌then◌else◌};
ghost use Rattle.std.specs.Char.{digit_value};
ghost use Rattle.knx_model.specs.Numbers.{is_digit};
ghost use Rattle.knx_model.specs.Spells.{SpellsValue};
ghost use Rattle.knx_model.specs.declared.frames.value.Value.{Value as GroupValue};
ghost use Rattle.knx_model.specs.Values.{hex_octets, short_of, long_of, value_value};

use crate::frames::{LongValue, Value};
use crate::words::number::digit_value;
use arrayvec::ArrayVec;

/// The first two digits and what comes after them; none where there are fewer.
#[tactic(auto, using(crate::proofs::Values::two_first))]
pub fn digit_pair(digits: &[u8]) -> Option<(u8, u8, &[u8])>
    ensures some { IfSome result (λ x. digits.now ≡ x.0 ∷ (x.1 ∷ x.2.now)) }
    ensures none { IfNone result (length digits.now < 2) }
{
    if digits.len() < 2 {
        return None;
    }
    let (pair, after) = digits.split_at(2);
    Some((pair[0], pair[1], after))
}

/// The octet that two hexadecimal digits write, in either case; none where one is no digit.
pub fn octet_in(high: u8, below: u8) -> Option<u8>
    ensures { result ≡ (if is_digit 16 high && is_digit 16 below then Some (digit_value high * 16 + digit_value below) else None) }
{
    let high = digit_value(high);
    let below = digit_value(below);
    if high < 16 && below < 16 {
        Some((high * 16 + below) as u8)
    } else {
        None
    }
}

/// The octets that hexadecimal digits write, two digits each.
#[tactic(auto, using(crate::proofs::Values::octets_go_on, crate::proofs::Values::octets_break, crate::proofs::Values::octets_end, crate::proofs::Values::octets_odd))]
fn octets_in(digits: &[u8]) -> Option<LongValue>
    requires { length digits.now ≤ 28 }
    ensures { result ≡ hex_octets digits.now }
{
    let mut octets: ArrayVec<u8, { LongValue::CAPACITY }> = ArrayVec::new();
    let mut rest = digits;
    while let Some((high, below, after)) = digit_pair(rest) {
        let octet = octet_in(high, below)?;
        octets.push(octet);
        rest = after;
    }
    if rest.is_empty() {
        Some(LongValue::from_slice(octets.as_slice()))
    } else {
        None
    }
}

/// A short value: one octet up to 3F (hexadecimal).
#[tactic(auto, using(crate::proofs::Values::short_few, crate::proofs::Values::short_one))]
fn short_in(digits: &[u8]) -> Option<Value>
    ensures { result ≡ short_of (hex_octets digits.now) }
{
    let (high, below, after) = digit_pair(digits)?;
    if !after.is_empty() {
        return None;
    }
    let octet = octet_in(high, below)?;
    if octet <= 0x3F {
        Some(Value::Short(octet))
    } else {
        None
    }
}

/// A long value: 1 to 14 octets.
#[tactic(auto, using(crate::proofs::Values::long_within_28))]
fn long_in(digits: &[u8]) -> Option<Value>
    ensures { result ≡ long_of (hex_octets digits.now) }
{
    if digits.is_empty() || digits.len() > 2 * LongValue::CAPACITY {
        return None;
    }
    Some(Value::Long(octets_in(digits)?))
}

/// The group value that a word writes.
#[tactic(auto, unfolding(crate::specs::Values::value_value))]
pub fn value_in(word: &[u8]) -> Option<Value>
    ensures { result ≡ value_value word.now }
{
    match word {
        [b's', digits @ ..] => short_in(digits),
        _ => long_in(word),
    }
}

/// The group value that a word writes: `s` and two hexadecimal digits up to 3F for a short one, or two digits an octet for
/// 1 to 14 octets; none for another word.
pub fn value_of(word: &str) -> Option<Value>
    ensures { result ≡ value_value word.now }
{
    value_in(word.as_bytes())
}

/// What `value_in` reads is just what the grammar spells.
pub fn value_spelled()
    ensures { (word : List ℕ) (value : GroupValue) → (value_value word ≡ Some value) ↔ SpellsValue word value }
{}
