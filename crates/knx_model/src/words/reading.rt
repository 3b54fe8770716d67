//! What the readers of all texts share: the words of a line, and the places that more than one language has.

ghost use Rattle.std.specs.Prelude.{◌≡◌, ◌<◌, ◌%◌, ◌∷◌, [], IfOk, IfErr, IsTrue, bytes_eq};
ghost use Rattle.knx_model.specs.Words.{words, is_text};
ghost use Rattle.knx_model.specs.Addresses.{group_value, group_by, ind_value};
ghost use Rattle.knx_model.specs.Answers.{Answers};
ghost use Rattle.knx_model.specs.LeastLine.{line_text};
ghost use Rattle.knx_model.specs.Statements.{field, ended};
ghost use Rattle.knx_model.specs.declared.refusal.Why.TheVariants.{BadAddress, MissingWord, NoMemory as OutOfMemory};

use crate::address::{GroupAddr, IndAddr};
use crate::project::TextVersion;
use crate::refusal::{Refused, Why};
use crate::words::address::{group_by, group_in, ind_in};
use crate::words::cut::first_word;
use crate::words::line::{is_text, without_comment};

/// The longest text of a project, a script or a catalogue, in octets: 4 MiB.
pub const LONGEST_TEXT: u32 = 4_194_304;

/// The longest line, in octets without its end.
const LONGEST_LINE: usize = 512;

/// The part of a line that has its words, before its comment. A line that is no text or too long is refused.
pub fn line_text(line: &[u8]) -> Result<&[u8], Why>
    ensures { Answers (λ x. x.now) result (line_text line.now) }
{
    if !is_text(line) {
        return Err(Why::NotText);
    }
    words_of_text(line)
}

/// The part of a line of text that has its words, before its comment. A line that is too long is refused.
pub fn words_of_text(line: &[u8]) -> Result<&[u8], Why>
    requires { IsTrue (is_text line.now) }
    ensures { Answers (λ x. x.now) result (line_text line.now) }
{
    if line.len() > LONGEST_LINE {
        return Err(Why::LongLine);
    }
    Ok(without_comment(line))
}

/// The next word of a line, and the words after it.
pub fn next_field(rest: &[u8]) -> Result<(&[u8], &[u8]), Why>
    ensures word { IfOk result (λ x. words rest.now ≡ x.0.now ∷ words x.1.now) }
    ensures missing { IfErr result (λ why. (why ≡ MissingWord) × (words rest.now ≡ [])) }
{
    first_word(rest).ok_or(Why::MissingWord)
}

/// A group address, and the words after it.
pub fn group_field(rest: &[u8]) -> Result<(GroupAddr, &[u8]), Why>
    ensures read { Answers (λ x. (x.0, words x.1.now)) result (field group_value BadAddress (words rest.now)) }
    ensures fits { IfOk result (λ x. 0 < x.0.raw) }
{
    let (word, rest) = next_field(rest)?;
    let group = group_in(word).ok_or(Why::BadAddress)?;
    Ok((group, rest))
}

/// A group address as a project text of this version writes it, and the words after it.
pub fn group_field_by(version: TextVersion, rest: &[u8]) -> Result<(GroupAddr, &[u8]), Why>
    ensures read { Answers (λ x. (x.0, words x.1.now)) result (field (group_by version) BadAddress (words rest.now)) }
    ensures fits { IfOk result (λ x. 0 < x.0.raw) }
{
    let (word, rest) = next_field(rest)?;
    let group = group_by(version, word).ok_or(Why::BadAddress)?;
    Ok((group, rest))
}

/// The individual address of a device, and the words after it.
pub fn device_field(rest: &[u8]) -> Result<(IndAddr, &[u8]), Why>
    ensures read { Answers (λ x. (x.0, words x.1.now)) result (field ind_value BadAddress (words rest.now)) }
    ensures fits { IfOk result (λ x. (0 < x.0.raw % 256) × (x.0.raw % 256 < 255)) }
{
    let (word, rest) = next_field(rest)?;
    let device = ind_in(word).ok_or(Why::BadAddress)?;
    Ok((device, rest))
}

/// Whether a word is a keyword. Keywords are short: they are compared octet by octet, without a call.
pub fn is_word(word: &[u8], keyword: &[u8]) -> bool
    ensures { result ≡ bytes_eq word.now keyword.now }
{
    if word.len() != keyword.len() {
        return false;
    }
    for i in 0..word.len() {
        if word[i] != keyword[i] {
            return false;
        }
    }
    true
}

/// No word is left.
pub fn no_more(rest: &[u8]) -> Result<(), Why>
    ensures { Answers (λ x. x) result (ended tt (words rest.now)) }
{
    match first_word(rest) {
        None => Ok(()),
        Some(_) => Err(Why::ExtraWord),
    }
}

/// The refusal of a line; of line 0 for want of memory.
pub fn refused_at(line: u32, why: Why) -> Refused
    ensures why { result.why ≡ why }
    ensures line { ¬ (why ≡ OutOfMemory tt) → result ≡ record { line = line; why = why } }
    ensures memory { why ≡ OutOfMemory tt → result.line ≡ 0 }
{
    match why {
        Why::NoMemory(_) => Refused { line: 0, why },
        _ => Refused { line, why },
    }
}
