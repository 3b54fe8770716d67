//! Words that are numbers.

ghost use Rattle.std.specs.Prelude.{◌≡◌, ℕ, ◌≤◌, ◌↔◌, List, [], ◌∷◌, Some, IfSome};
ghost use Rattle.std.specs.Char.{digit_value};
ghost use Rattle.knx_model.specs.Numbers.{numeral, number_value, part_value, up_to};
ghost use Rattle.knx_model.specs.Spells.{SpellsNumber};

/// What a digit is worth in a base up to 36, or 36 for what is none.
pub fn digit_value(c: u8) -> u64
    ensures { result ≡ digit_value c }
{
    match c {
        b'0'..=b'9' => u64::from(c - b'0'),
        b'A'..=b'Z' => u64::from(c - b'A') + 10,
        b'a'..=b'z' => u64::from(c - b'a') + 10,
        _ => 36,
    }
}

/// The number that 1 to `most` digits write.
#[tactic(auto, using(crate::proofs::Numbers::times_fits, crate::proofs::Numbers::fits, std::proofs::lemmas::Grind::common_steps), unfolding(crate::specs::Numbers::numeral))]
pub fn numeral(radix: u64, most: usize, digits: &[u8]) -> Option<u64>
    requires base { radix ≤ 16 }
    requires short { most ≤ 10 }
    ensures { result ≡ numeral radix most digits.now }
{
    if digits.is_empty() {
        return None;
    }
    if digits.len() > most {
        return None;
    }
    let mut number = 0;
    for c in digits {
        let digit = digit_value(*c);
        if digit >= radix {
            return None;
        }
        number = number * radix + digit;
    }
    Some(number)
}

/// The number that one decimal digit writes.
#[tactic(auto, unfolding(crate::specs::Numbers::numeral))]
fn one_digit(a: u8) -> Option<u32>
    ensures { result ≡ numeral 10 3 (a ∷ []) }
{
    match a {
        b'0'..=b'9' => Some(u32::from(a - b'0')),
        _ => None,
    }
}

/// The number that two decimal digits write.
#[tactic(auto, unfolding(crate::specs::Numbers::numeral))]
fn two_digits(a: u8, b: u8) -> Option<u32>
    ensures { result ≡ numeral 10 3 (a ∷ b ∷ []) }
{
    Some(one_digit(a)? * 10 + one_digit(b)?)
}

/// The number that three decimal digits write.
#[tactic(auto, unfolding(crate::specs::Numbers::numeral))]
fn three_digits(a: u8, b: u8, c: u8) -> Option<u32>
    ensures { result ≡ numeral 10 3 (a ∷ b ∷ c ∷ []) }
{
    Some(two_digits(a, b)? * 10 + one_digit(c)?)
}

/// The number that 1 to 3 decimal digits write.
#[tactic(auto, unfolding(crate::specs::Numbers::numeral))]
#[inline(always)]
fn up_to_three_digits(word: &[u8]) -> Option<u32>
    ensures { result ≡ numeral 10 3 word.now }
{
    match word {
        [a] => one_digit(*a),
        [a, b] => two_digits(*a, *b),
        [a, b, c] => three_digits(*a, *b, *c),
        _ => None,
    }
}

/// The number that a word writes, in decimal or behind `0x` in hexadecimal.
#[tactic(auto, unfolding(crate::specs::Numbers::number_value))]
pub fn number_in(word: &[u8]) -> Option<u32>
    ensures { result ≡ number_value word.now }
{
    let number = match word {
        [b'0', b'x', digits @ ..] => numeral(16, 8, digits)?,
        _ => numeral(10, 10, word)?,
    };
    if number <= 0xFFFF_FFFF {
        Some(number as u32)
    } else {
        None
    }
}

/// The number that 1 to `digits` decimal digits write, up to `most`.
pub fn number_up_to(most: u32, digits: usize, word: &[u8]) -> Option<u32>
    requires { digits ≤ 10 }
    ensures value { result ≡ up_to most (numeral 10 digits word.now) }
    ensures within { IfSome result (λ n. n ≤ most) }
{
    let number = numeral(10, digits, word)?;
    if number <= u64::from(most) {
        Some(number as u32)
    } else {
        None
    }
}

/// A part of an address: 1 to 3 decimal digits.
#[tactic(auto, unfolding(crate::specs::Numbers::part_value))]
#[inline(always)]
pub fn part_in(most: u32, word: &[u8]) -> Option<u32>
    ensures value { result ≡ part_value most word.now }
    ensures within { IfSome result (λ n. n ≤ most) }
{
    let number = up_to_three_digits(word)?;
    if number <= most { Some(number) } else { None }
}

/// The number that a word writes, in decimal or behind `0x` in hexadecimal, up to 4,294,967,295; none for another word.
pub fn number_of(word: &str) -> Option<u32>
    ensures { result ≡ number_value word.now }
{
    number_in(word.as_bytes())
}

/// What `number_in` reads is just what the grammar spells.
pub fn number_spelled()
    ensures { (word : List ℕ) (n : ℕ) → (number_value word ≡ Some n) ↔ SpellsNumber word n }
{}
