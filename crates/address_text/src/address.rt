//! Words that are addresses of units.

ghost use Rattle.std.specs.Prelude.{◌≡◌, ◌==◌, ◌∷◌, ◌≤◌, [], MatchOption, IfSome, position};
ghost use Rattle.std.specs.List.{slice_split};
ghost use Rattle.std.specs.Option.{option_map, option_and_then};
ghost use Rattle.knx_model.specs.Addresses.{three};
ghost use Rattle.knx_model.specs.Numbers.{numeral, part_value};
ghost use Rattle.address_text.specs.UnitAddress.{unit_address};

use knx_model::IndAddr;

/// The address of a unit that a word names.
#[tactic(auto, unfolding(crate::specs::UnitAddress::unit_address))]
pub fn unit_address_in(word: &[u8]) -> Option<IndAddr>
    ensures { result ≡ unit_address word.now }
{
    let (area, line, part) = three_parts(word)?;
    if part == 0 {
        return None;
    }
    Some(IndAddr {
        raw: (area * 4096 + line * 256 + part) as u16,
    })
}

/// Area, line and part, joined by dots.
fn three_parts(word: &[u8]) -> Option<(u32, u32, u32)>
    ensures value { result ≡ option_and_then (λ parts. option_and_then (λ a. option_and_then (λ b. option_map (λ c. (a, b, c)) (part_value 255 parts.2)) (part_value 15 parts.1)) (part_value 15 parts.0)) (three (slice_split (λ b. b == 46) word.now)) }
    ensures within { IfSome result (λ x. (x.0 ≤ 15) × (x.1 ≤ 15) × (x.2 ≤ 255)) }
{
    let (area, rest) = cut_at_dot(word)?;
    // A dot in what comes after the second one is no digit.
    let (line, part) = cut_at_dot(rest)?;
    let area = part_in(15, area)?;
    let line = part_in(15, line)?;
    let part = part_in(255, part)?;
    Some((area, line, part))
}

/// The two sides of the first dot.
#[tactic(auto, using(knx_model::proofs::Cutting::cut_found, knx_model::proofs::Cutting::cut_none))]
fn cut_at_dot(word: &[u8]) -> Option<(&[u8], &[u8])>
    ensures { MatchOption result (slice_split (λ b. b == 46) word.now ≡ word.now ∷ []) (λ x. slice_split (λ b. b == 46) word.now ≡ x.0.now ∷ slice_split (λ b. b == 46) x.1.now) }
{
    let i = dot_in(word)?;
    let (front, rest) = word.split_at(i);
    let (_, rest) = rest.split_at(1);
    Some((front, rest))
}

fn dot_in(word: &[u8]) -> Option<usize>
    ensures { result ≡ position (λ b. b == 46) word.now }
{
    word.iter().position(|b| *b == b'.')
}

/// A part of an address: 1 to 3 decimal digits.
#[tactic(auto, unfolding(knx_model::specs::Numbers::part_value))]
fn part_in(most: u32, word: &[u8]) -> Option<u32>
    ensures value { result ≡ part_value most word.now }
    ensures within { IfSome result (λ n. n ≤ most) }
{
    let number = digits_in(word)?;
    if number <= most { Some(number) } else { None }
}

/// The number that 1 to 3 decimal digits write.
#[tactic(auto, unfolding(knx_model::specs::Numbers::numeral))]
fn digits_in(word: &[u8]) -> Option<u32>
    ensures { result ≡ numeral 10 3 word.now }
{
    match word {
        [a] => digit_in(*a),
        [a, b] => Some(digit_in(*a)? * 10 + digit_in(*b)?),
        [a, b, c] => Some((digit_in(*a)? * 10 + digit_in(*b)?) * 10 + digit_in(*c)?),
        _ => None,
    }
}

/// The number that one decimal digit writes.
#[tactic(auto, unfolding(knx_model::specs::Numbers::numeral))]
fn digit_in(a: u8) -> Option<u32>
    ensures { result ≡ numeral 10 3 (a ∷ []) }
{
    match a {
        b'0'..=b'9' => Some(u32::from(a - b'0')),
        _ => None,
    }
}
