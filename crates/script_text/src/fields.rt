//! The words of a script's line, each read as its place wants.

ghost use Rattle.std.specs.Prelude.{◌≡◌, ◌<◌, IfSome, IfOk, IsTrue};
ghost use Rattle.knx_model.specs.Answers.{Answers};
ghost use Rattle.knx_model.specs.Words.{words};
ghost use Rattle.knx_model.specs.Numbers.{number_value};
ghost use Rattle.knx_model.specs.Statements.{field};
ghost use Rattle.knx_model.specs.ScriptText.{count_value, status_value, service_value, is_service};
ghost use Rattle.knx_model.specs.declared.refusal.Why.TheVariants.{BadNumber};

use knx_model::{GroupService, Why, next_field, number_in, octet_in, value_in};

/// A number of at least 1.
fn count_in(word: &[u8]) -> Option<u32>
    ensures value { result ≡ count_value word.now }
    ensures fits { IfSome result (λ n. 0 < n) }
{
    let number = number_in(word)?;
    if number == 0 { None } else { Some(number) }
}

/// A status: two hexadecimal digits from 01 to FF.
fn status_in(word: &[u8]) -> Option<u8>
    ensures value { result ≡ status_value word.now }
    ensures fits { IfSome result (λ status. 0 < status) }
{
    let [high, below] = word else {
        return None;
    };
    let status = octet_in(*high, *below)?;
    if status == 0 { None } else { Some(status) }
}

/// What is asked of a group: `read`, or the value that is written.
#[tactic(auto, unfolding(knx_model::specs::ScriptText::service_value))]
fn service_in(word: &[u8]) -> Option<GroupService>
    ensures value { result ≡ service_value word.now }
{
    if word == b"read".as_slice() {
        Some(GroupService::Read)
    } else {
        Some(GroupService::Write(value_in(word)?))
    }
}

/// A number of at least 1, and the words after it.
pub fn count_field(rest: &[u8]) -> Result<(u32, &[u8]), Why>
    ensures read { Answers (λ x. (x.0, words x.1.now)) result (field count_value BadNumber (words rest.now)) }
    ensures fits { IfOk result (λ x. 0 < x.0) }
{
    let (word, rest) = next_field(rest)?;
    let n = count_in(word).ok_or(Why::BadNumber)?;
    Ok((n, rest))
}

/// A number, and the words after it.
pub fn number_field(rest: &[u8]) -> Result<(u32, &[u8]), Why>
    ensures { Answers (λ x. (x.0, words x.1.now)) result (field number_value BadNumber (words rest.now)) }
{
    let (word, rest) = next_field(rest)?;
    let n = number_in(word).ok_or(Why::BadNumber)?;
    Ok((n, rest))
}

/// A status, and the words after it.
pub fn status_field(rest: &[u8]) -> Result<(u8, &[u8]), Why>
    ensures read { Answers (λ x. (x.0, words x.1.now)) result (field status_value BadNumber (words rest.now)) }
    ensures fits { IfOk result (λ x. 0 < x.0) }
{
    let (word, rest) = next_field(rest)?;
    let status = status_in(word).ok_or(Why::BadNumber)?;
    Ok((status, rest))
}

/// What is asked of a group, and the words after it.
#[tactic(auto, using(crate::proofs::Values::service_fits))]
pub fn service_field(rest: &[u8]) -> Result<(GroupService, &[u8]), Why>
    ensures read { Answers (λ x. (x.0, words x.1.now)) result (field service_value BadNumber (words rest.now)) }
    ensures fits { IfOk result (λ x. IsTrue (is_service x.0)) }
{
    let (word, rest) = next_field(rest)?;
    let service = service_in(word).ok_or(Why::BadNumber)?;
    Ok((service, rest))
}
