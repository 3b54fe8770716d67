//! What a line says, by its first word.

ghost use Rattle.std.specs.Prelude.{◌≤◌, IfOk, IfSome, IsTrue};
ghost use Rattle.knx_model.specs.Answers.{Answers};
ghost use Rattle.knx_model.specs.Words.{words};
ghost use Rattle.knx_model.specs.ScriptText.{after_word_says, script_words_say, script_line_says, script_says, is_script_what};

mod disturbance;
mod telegram;

use disturbance::{
    cut_line_in, device_n_in, drop_line_in, lose_line_in, off_line_in, refuse_line_in,
    repeat_line_in, standard_line_in,
};
use knx_model::{ScriptWhat, Why, first_word, line_text};
use telegram::{telegram_in, then_line_in};

/// The greatest number of lines of a script.
const MOST_LINES: u32 = 65_536;

/// What a line says after its first word.
#[tactic(auto, unfolding(knx_model::specs::ScriptText::after_word_says))]
fn after_word_in(word: &[u8], rest: &[u8]) -> Result<ScriptWhat, Why>
    ensures read { Answers (λ x. x) result (after_word_says word.now (words rest.now)) }
    ensures spelled { IfOk result (λ what. IsTrue (is_script_what what)) }
{
    if word == b"lose".as_slice() {
        lose_line_in(rest)
    } else if word == b"repeat".as_slice() {
        repeat_line_in(rest)
    } else if word == b"cut".as_slice() {
        cut_line_in(rest)
    } else if word == b"worn".as_slice() {
        let (device, n) = device_n_in(rest)?;
        Ok(ScriptWhat::Worn(device, n))
    } else if word == b"close".as_slice() {
        let (device, n) = device_n_in(rest)?;
        Ok(ScriptWhat::CloseAfter(device, n))
    } else if word == b"refuse".as_slice() {
        refuse_line_in(rest)
    } else if word == b"drop".as_slice() {
        drop_line_in(rest)
    } else if word == b"off".as_slice() {
        off_line_in(rest)
    } else if word == b"standard".as_slice() {
        standard_line_in(rest)
    } else if word == b"group".as_slice() {
        telegram_in(false, rest)
    } else if word == b"then".as_slice() {
        then_line_in(rest)
    } else {
        Err(Why::UnknownWord)
    }
}

#[tactic(auto, unfolding(knx_model::specs::ScriptText::script_words_say))]
fn words_in(rest: &[u8]) -> Result<Option<ScriptWhat>, Why>
    ensures read { Answers (λ x. x) result (script_words_say (words rest.now)) }
    ensures spelled { IfOk result (λ said. IfSome said (λ what. IsTrue (is_script_what what))) }
{
    match first_word(rest) {
        None => Ok(None),
        Some((word, rest)) => {
            let what = after_word_in(word, rest)?;
            Ok(Some(what))
        }
    }
}

#[tactic(auto, unfolding(knx_model::specs::ScriptText::script_line_says))]
fn text_in(line: &[u8]) -> Result<Option<ScriptWhat>, Why>
    ensures read { Answers (λ x. x) result (script_line_says line.now) }
    ensures spelled { IfOk result (λ said. IfSome said (λ what. IsTrue (is_script_what what))) }
{
    let text = line_text(line)?;
    words_in(text)
}

/// What the line of this number says: one of the script's lines, nothing, or the first rule that it breaks.
#[tactic(auto, unfolding(knx_model::specs::ScriptText::script_says))]
pub fn line_in(number: u32, line: &[u8]) -> Result<Option<ScriptWhat>, Why>
    ensures read { Answers (λ x. x) result (script_says number line.now) }
    ensures spelled { IfOk result (λ said. IfSome said (λ what. IsTrue (is_script_what what))) }
    ensures few { IfOk result (λ said. number ≤ 65536) }
{
    if number > MOST_LINES {
        return Err(Why::TooMany { limit: MOST_LINES });
    }
    text_in(line)
}
