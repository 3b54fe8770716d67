//! The lines that disturb a run: telegrams lost and repeated, writes that are cut or worn, connections closed and refused, the channel
//! dropped, a device off; and which devices are standard ones.

ghost use Rattle.std.specs.Prelude.{◌<◌, ◌%◌, IfOk, IsTrue};
ghost use Rattle.knx_model.specs.Answers.{Answers};
ghost use Rattle.knx_model.specs.Words.{words};
ghost use Rattle.knx_model.specs.ScriptText.{n_says, device_n_says, cut_says, refuse_says, off_says, standard_says, lose_says, repeat_says, drop_says, is_script_what};

use crate::fields::{count_field, number_field, status_field};
use knx_model::{IndAddr, ScriptWhat, Why, device_field, next_field, no_more};

/// `N`, the last word of its line.
#[tactic(auto, unfolding(knx_model::specs::ScriptText::n_says))]
fn n_in(rest: &[u8]) -> Result<u32, Why>
    ensures read { Answers (λ x. x) result (n_says (words rest.now)) }
    ensures fits { IfOk result (λ n. 0 < n) }
{
    let (n, rest) = count_field(rest)?;
    no_more(rest)?;
    Ok(n)
}

/// `D N`, the last words of their line.
#[tactic(auto, unfolding(knx_model::specs::ScriptText::device_n_says))]
pub fn device_n_in(rest: &[u8]) -> Result<(IndAddr, u32), Why>
    ensures read { Answers (λ x. x) result (device_n_says (words rest.now)) }
    ensures fits { IfOk result (λ x. (0 < x.0.raw % 256) × (x.0.raw % 256 < 255) × (0 < x.1)) }
{
    let (device, rest) = device_field(rest)?;
    let (n, rest) = count_field(rest)?;
    no_more(rest)?;
    Ok((device, n))
}

/// `lose up N`, `lose down N`, `lose to D N`, `lose from D N`
#[tactic(auto, unfolding(knx_model::specs::ScriptText::lose_says))]
pub fn lose_line_in(rest: &[u8]) -> Result<ScriptWhat, Why>
    ensures read { Answers (λ x. x) result (lose_says (words rest.now)) }
    ensures spelled { IfOk result (λ what. IsTrue (is_script_what what)) }
{
    let (word, rest) = next_field(rest)?;
    match word {
        b"up" => {
            let n = n_in(rest)?;
            Ok(ScriptWhat::LoseUp(n))
        }
        b"down" => {
            let n = n_in(rest)?;
            Ok(ScriptWhat::LoseDown(n))
        }
        b"to" => {
            let (device, n) = device_n_in(rest)?;
            Ok(ScriptWhat::LoseTo(device, n))
        }
        b"from" => {
            let (device, n) = device_n_in(rest)?;
            Ok(ScriptWhat::LoseFrom(device, n))
        }
        _ => Err(Why::UnknownWord),
    }
}

/// `repeat up N`, `repeat down N`, `repeat to D N`
#[tactic(auto, unfolding(knx_model::specs::ScriptText::repeat_says))]
pub fn repeat_line_in(rest: &[u8]) -> Result<ScriptWhat, Why>
    ensures read { Answers (λ x. x) result (repeat_says (words rest.now)) }
    ensures spelled { IfOk result (λ what. IsTrue (is_script_what what)) }
{
    let (word, rest) = next_field(rest)?;
    match word {
        b"up" => {
            let n = n_in(rest)?;
            Ok(ScriptWhat::RepeatUp(n))
        }
        b"down" => {
            let n = n_in(rest)?;
            Ok(ScriptWhat::RepeatDown(n))
        }
        b"to" => {
            let (device, n) = device_n_in(rest)?;
            Ok(ScriptWhat::RepeatTo(device, n))
        }
        _ => Err(Why::UnknownWord),
    }
}

/// `cut D N K`
#[tactic(auto, unfolding(knx_model::specs::ScriptText::cut_says))]
pub fn cut_line_in(rest: &[u8]) -> Result<ScriptWhat, Why>
    ensures read { Answers (λ x. x) result (cut_says (words rest.now)) }
    ensures spelled { IfOk result (λ what. IsTrue (is_script_what what)) }
{
    let (device, rest) = device_field(rest)?;
    let (n, rest) = count_field(rest)?;
    let (k, rest) = number_field(rest)?;
    no_more(rest)?;
    Ok(ScriptWhat::Cut { device, n, k })
}

/// `refuse N HH`
#[tactic(auto, unfolding(knx_model::specs::ScriptText::refuse_says))]
pub fn refuse_line_in(rest: &[u8]) -> Result<ScriptWhat, Why>
    ensures read { Answers (λ x. x) result (refuse_says (words rest.now)) }
    ensures spelled { IfOk result (λ what. IsTrue (is_script_what what)) }
{
    let (n, rest) = count_field(rest)?;
    let (status, rest) = status_field(rest)?;
    no_more(rest)?;
    Ok(ScriptWhat::Refuse { n, status })
}

/// `drop channel N`
#[tactic(auto, unfolding(knx_model::specs::ScriptText::drop_says))]
pub fn drop_line_in(rest: &[u8]) -> Result<ScriptWhat, Why>
    ensures read { Answers (λ x. x) result (drop_says (words rest.now)) }
    ensures spelled { IfOk result (λ what. IsTrue (is_script_what what)) }
{
    let (word, rest) = next_field(rest)?;
    match word {
        b"channel" => {
            let n = n_in(rest)?;
            Ok(ScriptWhat::DropChannel(n))
        }
        _ => Err(Why::UnknownWord),
    }
}

/// `off D`
#[tactic(auto, unfolding(knx_model::specs::ScriptText::off_says))]
pub fn off_line_in(rest: &[u8]) -> Result<ScriptWhat, Why>
    ensures read { Answers (λ x. x) result (off_says (words rest.now)) }
    ensures spelled { IfOk result (λ what. IsTrue (is_script_what what)) }
{
    let (device, rest) = device_field(rest)?;
    no_more(rest)?;
    Ok(ScriptWhat::Off(device))
}

/// `standard D`
#[tactic(auto, unfolding(knx_model::specs::ScriptText::standard_says))]
pub fn standard_line_in(rest: &[u8]) -> Result<ScriptWhat, Why>
    ensures read { Answers (λ x. x) result (standard_says (words rest.now)) }
    ensures spelled { IfOk result (λ what. IsTrue (is_script_what what)) }
{
    let (device, rest) = device_field(rest)?;
    no_more(rest)?;
    Ok(ScriptWhat::Standard(device))
}
