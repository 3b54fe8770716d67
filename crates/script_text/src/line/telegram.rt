//! The lines of group telegrams, sent while the jobs run or after them.

ghost use Rattle.std.specs.Prelude.{IfOk, IsTrue};
ghost use Rattle.knx_model.specs.Answers.{Answers};
ghost use Rattle.knx_model.specs.Words.{words};
ghost use Rattle.knx_model.specs.ScriptText.{telegram_says, then_says, is_script_what};

use crate::fields::service_field;
use knx_model::{ScriptWhat, Why, group_field, next_field, no_more};

/// `GA V`, of a telegram that is sent while the jobs run or after them.
#[tactic(auto, unfolding(knx_model::specs::ScriptText::telegram_says))]
pub fn telegram_in(after: bool, rest: &[u8]) -> Result<ScriptWhat, Why>
    ensures read { Answers (λ x. x) result (telegram_says after (words rest.now)) }
    ensures spelled { IfOk result (λ what. IsTrue (is_script_what what)) }
{
    let (group, rest) = group_field(rest)?;
    let (service, rest) = service_field(rest)?;
    no_more(rest)?;
    Ok(ScriptWhat::Group {
        after,
        group,
        service,
    })
}

/// `then group GA V`
#[tactic(auto, unfolding(knx_model::specs::ScriptText::then_says))]
pub fn then_line_in(rest: &[u8]) -> Result<ScriptWhat, Why>
    ensures read { Answers (λ x. x) result (then_says (words rest.now)) }
    ensures spelled { IfOk result (λ what. IsTrue (is_script_what what)) }
{
    let (word, rest) = next_field(rest)?;
    match word {
        b"group" => telegram_in(true, rest),
        _ => Err(Why::UnknownWord),
    }
}
