//! The flags of an object.

ghost use Rattle.std.specs.Prelude.{◌≡◌, ℕ, ◌+◌, ◌^◌, ◌<◌, ◌==◌, ◌↔◌, ◌++◌, count_by, List, Some, OnOk, if◌then◌else◌};
ghost use Rattle.knx_model.specs.Flags.{times, flags_value, flags_text, letter_if};
ghost use Rattle.knx_model.specs.Spells.{SpellsFlags};

use crate::config::{COMMUNICATE, PRIORITY, READ, READ_AT_START, TRANSMIT, UPDATE, WRITE};
use crate::lists::Octets;
use crate::no_memory::NoMemory;

/// How often each letter of flags stands in a word.
#[derive(Clone, Copy)]
struct Letters {
    c: usize,
    r: usize,
    w: usize,
    t: usize,
    u: usize,
    i: usize,
}

/// Counts a letter.
#[inline(always)]
fn count(letters: &mut Letters, letter: u8)
    requires { (letters.old.c < 2 ^ 63) × (letters.old.r < 2 ^ 63) × (letters.old.w < 2 ^ 63) × (letters.old.t < 2 ^ 63) × (letters.old.u < 2 ^ 63) × (letters.old.i < 2 ^ 63) }
    ensures c { letters.new.c ≡ letters.old.c + (if letter == 67 then 1 else 0) }
    ensures r { letters.new.r ≡ letters.old.r + (if letter == 82 then 1 else 0) }
    ensures w { letters.new.w ≡ letters.old.w + (if letter == 87 then 1 else 0) }
    ensures t { letters.new.t ≡ letters.old.t + (if letter == 84 then 1 else 0) }
    ensures u { letters.new.u ≡ letters.old.u + (if letter == 85 then 1 else 0) }
    ensures i { letters.new.i ≡ letters.old.i + (if letter == 73 then 1 else 0) }
{
    match letter {
        b'C' => letters.c += 1,
        b'R' => letters.r += 1,
        b'W' => letters.w += 1,
        b'T' => letters.t += 1,
        b'U' => letters.u += 1,
        b'I' => letters.i += 1,
        _ => {}
    }
}

/// The letters of a word.
#[tactic(auto, using(crate::proofs::FlagLetters::times_more, crate::proofs::FlagLetters::times_within))]
fn letters_in(word: &[u8]) -> Letters
    ensures c { result.c ≡ times 67 word.now }
    ensures r { result.r ≡ times 82 word.now }
    ensures w { result.w ≡ times 87 word.now }
    ensures t { result.t ≡ times 84 word.now }
    ensures u { result.u ≡ times 85 word.now }
    ensures i { result.i ≡ times 73 word.now }
{
    let mut letters = Letters {
        c: 0,
        r: 0,
        w: 0,
        t: 0,
        u: 0,
        i: 0,
    };
    for letter in word {
        count(&mut letters, *letter);
    }
    letters
}

/// The flags that a word spells.
#[tactic(auto, unfolding(crate::specs::Flags::flags_value))]
pub fn flags_in(word: &[u8]) -> Option<u8>
    ensures { result ≡ flags_value word.now }
{
    if word == b"-".as_slice() {
        return Some(PRIORITY);
    }
    let Letters { c, r, w, t, u, i } = letters_in(word);
    if c > 1 || r > 1 || w > 1 || t > 1 || u > 1 || i > 1 {
        return None;
    }
    if word.is_empty() || c + r + w + t + u + i != word.len() {
        return None;
    }
    let flags = c * usize::from(COMMUNICATE)
        + r * usize::from(READ)
        + w * usize::from(WRITE)
        + i * usize::from(READ_AT_START)
        + t * usize::from(TRANSMIT)
        + u * usize::from(UPDATE);
    Some((usize::from(PRIORITY) + flags) as u8)
}

/// The flag octet that a word spells; none for a word that isn't flags.
pub fn flags_of(word: &str) -> Option<u8>
    ensures { result ≡ flags_value word.now }
{
    flags_in(word.as_bytes())
}

/// What `flags_in` reads is just what the grammar spells.
pub fn flags_spelled()
    ensures { (word : List ℕ) (octet : ℕ) → (flags_value word ≡ Some octet) ↔ SpellsFlags word octet }
{}

fn put_letter(out: &mut Octets, is_set: bool, letter: u8) -> Result<(), NoMemory>
    ensures { OnOk result (out.new ≡ out.old ++ letter_if is_set letter) }
{
    if is_set { out.push(letter) } else { Ok(()) }
}

/// Appends the letters of a flag octet in the order C R W T U I, or `-` where none is set.
#[tactic(auto, unfolding(crate::specs::Flags::flags_text))]
pub fn put_flags(out: &mut Octets, octet: u8) -> Result<(), NoMemory>
    ensures { OnOk result (out.new ≡ out.old ++ flags_text octet) }
{
    if octet < 4 {
        return out.push(b'-');
    }
    put_letter(out, octet / COMMUNICATE % 2 == 1, b'C')?;
    put_letter(out, octet / READ % 2 == 1, b'R')?;
    put_letter(out, octet / WRITE % 2 == 1, b'W')?;
    put_letter(out, octet / TRANSMIT % 2 == 1, b'T')?;
    put_letter(out, octet / UPDATE % 2 == 1, b'U')?;
    put_letter(out, octet / READ_AT_START % 2 == 1, b'I')
}
