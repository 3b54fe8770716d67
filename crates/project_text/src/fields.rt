//! The words of a statement, each read as its place wants.

ghost use Rattle.std.specs.Prelude.{◌≡◌, ◌<◌, ◌%◌, IfSome, IfOk, IsTrue};
ghost use Rattle.knx_model.specs.Answers.{Answers, AnswersUnless};
ghost use Rattle.knx_model.specs.Words.{words};
ghost use Rattle.knx_model.specs.Numbers.{is_name, number_value};
ghost use Rattle.knx_model.specs.Flags.{flags_value};
ghost use Rattle.knx_model.specs.Sizes.{size_value};
ghost use Rattle.knx_model.specs.Statements.{field, object_value, name_value, most_groups, some_groups, are_groups};
ghost use Rattle.knx_model.specs.declared.refusal.Why.TheVariants.{BadNumber, BadName, NoMemory as OutOfMemory};

use knx_model::{
    Groups, Name, TextVersion, Why, first_word, flags_in, group_by, group_field_by, next_field,
    number_in, size_code_in,
};
use std::alloc::Global;

fn object_number_in(word: &[u8]) -> Option<u8>
    ensures value { result ≡ object_value word.now }
    ensures fits { IfSome result (λ n. 0 < n) }
{
    let number = number_in(word)?;
    if number == 0 || number > 255 {
        None
    } else {
        Some(number as u8)
    }
}

/// The number of an object, 1 to 255.
pub fn object_field(rest: &[u8]) -> Result<(u8, &[u8]), Why>
    ensures read { Answers (λ x. (x.0, words x.1.now)) result (field object_value BadNumber (words rest.now)) }
    ensures fits { IfOk result (λ x. 0 < x.0) }
{
    let (word, rest) = next_field(rest)?;
    let object = object_number_in(word).ok_or(Why::BadNumber)?;
    Ok((object, rest))
}

/// The value of a parameter.
pub fn value_field(rest: &[u8]) -> Result<(u32, &[u8]), Why>
    ensures { Answers (λ x. (x.0, words x.1.now)) result (field number_value BadNumber (words rest.now)) }
{
    let (word, rest) = next_field(rest)?;
    let value = number_in(word).ok_or(Why::BadNumber)?;
    Ok((value, rest))
}

/// The size of an object, as its size code.
pub fn size_field(rest: &[u8]) -> Result<(u8, &[u8]), Why>
    ensures read { Answers (λ x. (x.0, words x.1.now)) result (field size_value BadNumber (words rest.now)) }
    ensures fits { IfOk result (λ x. x.0 < 15) }
{
    let (word, rest) = next_field(rest)?;
    let size = size_code_in(word).ok_or(Why::BadNumber)?;
    Ok((size, rest))
}

/// The flags of an object, as their octet.
#[tactic(auto, using(crate::proofs::Flags::priority))]
pub fn flags_field(rest: &[u8]) -> Result<(u8, &[u8]), Why>
    ensures read { Answers (λ x. (x.0, words x.1.now)) result (field flags_value BadName (words rest.now)) }
    ensures fits { IfOk result (λ x. x.0 % 4 ≡ 3) }
{
    let (word, rest) = next_field(rest)?;
    let flags = flags_in(word).ok_or(Why::BadName)?;
    Ok((flags, rest))
}

/// A name.
pub fn name_field(rest: &[u8]) -> Result<(Name<'_>, &[u8]), Why>
    ensures read { Answers (λ x. (x.0, words x.1.now)) result (field name_value BadName (words rest.now)) }
    ensures fits { IfOk result (λ x. IsTrue (is_name x.0)) }
{
    let (word, rest) = next_field(rest)?;
    let name = Name::of(word).ok_or(Why::BadName)?;
    Ok((name, rest))
}

/// How many groups a `link` line may have.
pub fn most_groups(version: TextVersion) -> usize
    ensures { result ≡ most_groups version }
{
    match version {
        TextVersion::One => 1,
        TextVersion::Two => 32,
    }
}

/// The groups of a `link` line: all words that are left, at least one and at most as many as the version lets a line have.
pub fn groups_in(alloc: Global, version: TextVersion, all: &[u8]) -> Result<Groups, Why>
    ensures read { AnswersUnless (λ why. why ≡ OutOfMemory tt) (λ groups. groups) result (some_groups version (words all.now)) }
    ensures fits { IfOk result (λ groups. IsTrue (are_groups version groups)) }
{
    let (first, mut rest) = group_field_by(version, all)?;
    let mut groups = Groups::one(first);
    while let Some((word, after)) = first_word(rest) {
        if groups.as_slice().len() >= most_groups(version) {
            return Err(Why::ExtraWord);
        }
        let group = group_by(version, word).ok_or(Why::BadAddress)?;
        groups.push(alloc, group)?;
        rest = after;
    }
    Ok(groups)
}
