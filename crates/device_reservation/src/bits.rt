//! Sets of numbers as bits.

ghost use Rattle.std.specs.Prelude.{◌≡◌, ◌≢◌, ℕ, ◌+◌, ◌*◌, ◌<◌, ◌≤◌, List, length, slice_index, IfOk, IfNone, IfSome, false, true};
ghost use Rattle.device_reservation.specs.Bits.{holds, IsLeast};

use knx_model::NoMemory;
use std::alloc::Global;
use std::marker::Model;

const WORD_BITS: usize = 64;

/// A set of numbers below a limit.
#[derive(Drop)]
pub struct Bits {
    words: Vec<u64>,
    /// No word before this one has a bit.
    from: usize,
}

impl Model for Bits {
    ghost use Rattle.std.specs.Prelude.{List, ℕ};

    ghost Value = { List ℕ };

    ghost use Rattle.device_reservation.specs.Words.{IsEmptyBelow};

    ghost view = { λ s. s.words.items };

    ghost invariant = { λ s. IsEmptyBelow s.words.items s.from };
}

/// The first word from a place on that has a bit; the number of words where there is none.
fn next_word(words: &[u64], from: usize) -> usize
    requires { from ≤ length words.now }
    ensures within { result ≤ length words.now }
    ensures later { from ≤ result }
    ensures empty { (k : ℕ) → from ≤ k → k < result → slice_index words.now k ≡ 0 }
    ensures found { result < length words.now → 0 < slice_index words.now result }
{
    let mut at = from;
    while at < words.len() && words[at] == 0 {
        at += 1;
    }
    at
}

impl Bits {
    /// The empty set, of numbers below the limit.
    pub fn none(alloc: Global, limit: usize) -> Result<Bits, NoMemory>
        requires { limit ≤ 4294967296 }
        ensures room { IfOk result (λ made. limit ≤ 64 * length made) }
        ensures empty { IfOk result (λ made. (n : ℕ) → holds made n ≡ false) }
    {
        let words = Vec::from_elem(alloc, 0, limit / WORD_BITS + 1)?;
        Ok(Bits { words, from: 0 })
    }

    /// Takes a number into the set.
    pub fn insert(&mut self, number: usize)
        requires { number < 64 * length self.old }
        ensures limit { length self.new ≡ length self.old }
        ensures itself { holds self.new number ≡ true }
        ensures others { (n : ℕ) → n ≢ number → holds self.new n ≡ holds self.old n }
    {
        let at = number / WORD_BITS;
        self.words[at] |= 1 << (number % WORD_BITS);
        self.from = self.from.min(at);
    }

    /// Takes a number out of the set.
    pub fn remove(&mut self, number: usize)
        requires { number < 64 * length self.old }
        ensures limit { length self.new ≡ length self.old }
        ensures itself { holds self.new number ≡ false }
        ensures others { (n : ℕ) → n ≢ number → holds self.new n ≡ holds self.old n }
    {
        self.words[number / WORD_BITS] &= !(1 << (number % WORD_BITS));
    }

    /// The least number of the set.
    pub fn first(&mut self) -> Option<usize>
        ensures same { self.new ≡ self.old }
        ensures least { IfSome result (λ n. IsLeast self.old n) }
        ensures empty { IfNone result ((n : ℕ) → holds self.old n ≡ false) }
    {
        let at = next_word(&self.words, self.from);
        self.from = at;
        if at == self.words.len() {
            return None;
        }
        Some(WORD_BITS * at + self.words[at].trailing_zeros() as usize)
    }
}
