//! What a line says.

ghost use Rattle.std.specs.Prelude.{◌≡◌};
ghost use Rattle.knx_model.specs.Answers.{Answers};
ghost use Rattle.knx_model.specs.Words.{words};
ghost use Rattle.address_text.specs.UnitText.{unit_says, loss_says, lose_says, after_word_says, unit_words_say, unit_line_says};

use crate::fields::{address_field, count_field, mode_field};
use address_world::{Unit, UnitLoss};
use knx_model::{Why, first_word, line_text, next_field, no_more};

/// What a line says.
#[derive(Clone, Copy, Drop)]
pub enum UnitLine {
    /// `unit A.L.D prog`, `unit A.L.D off`
    OfUnit(Unit),
    /// `lose read K N`, `lose answer K N`
    OfLoss(UnitLoss),
}

#[tactic(auto, unfolding(crate::specs::UnitText::unit_says))]
fn unit_in(rest: &[u8]) -> Result<UnitLine, Why>
    ensures { Answers (λ x. x) result (unit_says (words rest.now)) }
{
    let (address, rest) = address_field(rest)?;
    let (prog, rest) = mode_field(rest)?;
    no_more(rest)?;
    Ok(UnitLine::OfUnit(Unit { address, prog }))
}

#[tactic(auto, unfolding(crate::specs::UnitText::loss_says))]
fn loss_in(answer: bool, rest: &[u8]) -> Result<UnitLine, Why>
    ensures { Answers (λ x. x) result (loss_says answer (words rest.now)) }
{
    let (unit, rest) = count_field(rest)?;
    let (n, rest) = count_field(rest)?;
    no_more(rest)?;
    Ok(UnitLine::OfLoss(UnitLoss { answer, unit, n }))
}

#[tactic(auto, unfolding(crate::specs::UnitText::lose_says))]
fn lose_in(rest: &[u8]) -> Result<UnitLine, Why>
    ensures { Answers (λ x. x) result (lose_says (words rest.now)) }
{
    let (word, rest) = next_field(rest)?;
    match word {
        b"read" => loss_in(false, rest),
        b"answer" => loss_in(true, rest),
        _ => Err(Why::UnknownWord),
    }
}

#[tactic(auto, unfolding(crate::specs::UnitText::after_word_says))]
fn after_word_in(word: &[u8], rest: &[u8]) -> Result<UnitLine, Why>
    ensures { Answers (λ x. x) result (after_word_says word.now (words rest.now)) }
{
    if word == b"unit".as_slice() {
        unit_in(rest)
    } else if word == b"lose".as_slice() {
        lose_in(rest)
    } else {
        Err(Why::UnknownWord)
    }
}

#[tactic(auto, unfolding(crate::specs::UnitText::unit_words_say))]
fn words_in(rest: &[u8]) -> Result<Option<UnitLine>, Why>
    ensures { Answers (λ x. x) result (unit_words_say (words rest.now)) }
{
    match first_word(rest) {
        None => Ok(None),
        Some((word, rest)) => {
            let what = after_word_in(word, rest)?;
            Ok(Some(what))
        }
    }
}

/// What a line says: a unit, a loss, nothing, or the first rule that it breaks.
#[tactic(auto, unfolding(crate::specs::UnitText::unit_line_says))]
pub fn line_in(line: &[u8]) -> Result<Option<UnitLine>, Why>
    ensures { Answers (λ x. x) result (unit_line_says line.now) }
{
    let text = line_text(line)?;
    words_in(text)
}
