//! A set of device parts, as bits: what an individual address names on its line has eight bits.

ghost use Rattle.std.specs.Prelude.{◌≡◌, ◌≢◌, ℕ, ◌+◌, ◌*◌, ◌<◌, ◌≤◌, false, true, IfNone, IfSome, if◌then◌else◌};
ghost use Rattle.std.specs.Int.{bit_at};
ghost use Rattle.line_sim.specs.Parts.{has_part};

use std::marker::Model;

/// How many device parts there are.
const PARTS: usize = 256;

/// A word holds so many of them.
const BITS: usize = 64;

/// A set of device parts.
#[derive(Drop)]
pub struct Parts {
    words: [u64; 4],
}

impl Model for Parts {
    ghost use Rattle.std.specs.Prelude.{List, ℕ};

    ghost Value = { List ℕ };

    ghost view = { λ s. s.words };
}

impl Parts {
    /// None.
    pub fn none() -> Parts
        ensures { (part : ℕ) → has_part result part ≡ false }
    {
        Parts { words: [0; 4] }
    }

    /// A device part is of the set or not.
    pub fn set(&mut self, part: usize, is_of_it: bool)
        requires { part < 256 }
        ensures here { has_part self.new part ≡ is_of_it }
        ensures others { (p : ℕ) → p ≢ part → has_part self.new p ≡ has_part self.old p }
    {
        let word = part / BITS;
        self.words[word] = with_bit(self.words[word], part % BITS, is_of_it);
    }

    /// The least device part of the set from one on; None exactly where there is none.
    pub fn first_from(&self, from: usize) -> Option<usize>
        ensures found { IfSome result (λ part. has_part self.now part ≡ true) }
        ensures within { IfSome result (λ part. (from ≤ part) × (part < 256)) }
        ensures none_between { IfSome result (λ part. (p : ℕ) → from ≤ p → p < part → has_part self.now p ≡ false) }
        ensures none { IfNone result ((p : ℕ) → from ≤ p → p < 256 → has_part self.now p ≡ false) }
    {
        for word in from / BITS..PARTS / BITS {
            if let Some(bit) = first_bit(self.words[word], start_in(word, from)) {
                return Some(word * BITS + bit);
            }
        }
        None
    }
}

/// Where the bits of a word begin that stand for a device part or those behind it.
fn start_in(word: usize, from: usize) -> usize
    requires word { word < 4 }
    requires from { from < 64 * (word + 1) }
    ensures within { result < 64 }
    ensures after { from ≤ 64 * word + result }
    ensures before { (bit : ℕ) → from ≤ 64 * word + bit → result ≤ bit }
{
    from.saturating_sub(word * BITS)
}

/// The least bit of a word that is set, from one on.
fn first_bit(word: u64, from: usize) -> Option<usize>
    requires { from < 64 }
    ensures found { IfSome result (λ bit. bit_at word bit ≡ 1) }
    ensures within { IfSome result (λ bit. (from ≤ bit) × (bit < 64)) }
    ensures none_between { IfSome result (λ bit. (i : ℕ) → from ≤ i → i < bit → bit_at word i ≡ 0) }
    ensures none { IfNone result ((i : ℕ) → from ≤ i → i < 64 → bit_at word i ≡ 0) }
{
    let rest = word & (u64::MAX << from);
    if rest == 0 {
        None
    } else {
        Some(rest.trailing_zeros() as usize)
    }
}

/// A word with a bit set or not.
fn with_bit(word: u64, bit: usize, is_set: bool) -> u64
    requires { bit < 64 }
    ensures here { bit_at result bit ≡ (if is_set then 1 else 0) }
    ensures others { (i : ℕ) → i < 64 → i ≢ bit → bit_at result i ≡ bit_at word i }
{
    if is_set {
        word | 1 << bit
    } else {
        word & !(1 << bit)
    }
}
