//! The words of a line, each read as its place wants.

ghost use Rattle.std.specs.Prelude.{◌≡◌, ◌<◌, IfSome};
ghost use Rattle.knx_model.specs.Answers.{Answers};
ghost use Rattle.knx_model.specs.Words.{words};
ghost use Rattle.knx_model.specs.Statements.{field};
ghost use Rattle.knx_model.specs.ScriptText.{count_value};
ghost use Rattle.knx_model.specs.declared.refusal.Why.TheVariants.{BadAddress, BadNumber, UnknownWord};
ghost use Rattle.address_text.specs.UnitAddress.{unit_address};
ghost use Rattle.address_text.specs.UnitText.{mode_value};

use crate::address::unit_address_in;
use knx_model::{IndAddr, Why, next_field, number_in};

/// A number of at least 1.
fn count_in(word: &[u8]) -> Option<u32>
    ensures { result ≡ count_value word.now }
{
    let number = number_in(word)?;
    if number == 0 { None } else { Some(number) }
}

/// Whether a unit is in programming mode.
fn mode_in(word: &[u8]) -> Option<bool>
    ensures { result ≡ mode_value word.now }
{
    if word == b"prog".as_slice() {
        Some(true)
    } else if word == b"off".as_slice() {
        Some(false)
    } else {
        None
    }
}

/// The address of a unit, and the words after it.
pub fn address_field(rest: &[u8]) -> Result<(IndAddr, &[u8]), Why>
    ensures { Answers (λ x. (x.0, words x.1.now)) result (field unit_address BadAddress (words rest.now)) }
{
    let (word, rest) = next_field(rest)?;
    let address = unit_address_in(word).ok_or(Why::BadAddress)?;
    Ok((address, rest))
}

/// Whether a unit is in programming mode, and the words after it.
pub fn mode_field(rest: &[u8]) -> Result<(bool, &[u8]), Why>
    ensures { Answers (λ x. (x.0, words x.1.now)) result (field mode_value UnknownWord (words rest.now)) }
{
    let (word, rest) = next_field(rest)?;
    let prog = mode_in(word).ok_or(Why::UnknownWord)?;
    Ok((prog, rest))
}

/// A number of at least 1, and the words after it.
pub fn count_field(rest: &[u8]) -> Result<(u32, &[u8]), Why>
    ensures { Answers (λ x. (x.0, words x.1.now)) result (field count_value BadNumber (words rest.now)) }
{
    let (word, rest) = next_field(rest)?;
    let n = count_in(word).ok_or(Why::BadNumber)?;
    Ok((n, rest))
}
