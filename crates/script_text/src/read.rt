//! A script is read line by line.

ghost use Rattle.std.specs.Prelude.{◌≡◌, ◌≤◌, ◌++◌, length, Ok, Err, OnOk, IfErr, IfSome, IsTrue};
ghost use Rattle.std.specs.Option.{option_to_list};
ghost use Rattle.knx_model.specs.Answers.{AnswersUnless};
ghost use Rattle.knx_model.specs.LeastLine.{said_in_line};
ghost use Rattle.knx_model.specs.ScriptText.{script_line, script_reading, is_script_what, are_script_lines};
ghost use Rattle.knx_model.specs.declared.refusal.Why.TheVariants.{NoMemory as OutOfMemory};

use crate::line::line_in;
use crate::script::Script;
use knx_model::{LONGEST_TEXT, List, Refused, ScriptLine, ScriptWhat, Why, first_line, refused_at};
use std::alloc::Global;

/// Adds what the line of this number says.
fn add(lines: &mut List<ScriptLine>, line: u32, said: Option<ScriptWhat>) -> Result<(), Why>
    requires few { line ≤ 65536 }
    requires spelled { IfSome said (λ what. IsTrue (is_script_what what)) }
    ensures added { OnOk result (lines.new ≡ lines.old ++ option_to_list (said_in_line script_line line (Ok said))) }
    ensures spelled { IsTrue (are_script_lines lines.old) → OnOk result (IsTrue (are_script_lines lines.new)) }
    ensures memory { IfErr result (λ why. why ≡ OutOfMemory tt) }
{
    match said {
        None => Ok(()),
        Some(what) => {
            lines.push(ScriptLine { line, what })?;
            Ok(())
        }
    }
}

/// A text has at most 4,194,304 octets; a longer one is refused at line 0.
fn fits(octets: &[u8]) -> Result<(), Refused>
    ensures fits { OnOk result (length octets.now ≤ 4194304) }
    ensures longer { IfErr result (λ e. script_reading octets.now ≡ Err e) }
    ensures line { IfErr result (λ e. e.line ≡ 0) }
{
    if octets.len() > LONGEST_TEXT as usize {
        return Err(Refused {
            line: 0,
            why: Why::TooMany {
                limit: LONGEST_TEXT,
            },
        });
    }
    Ok(())
}

/// The lines of a script of at most 4,194,304 octets and 65,536 lines, or why it is refused: the least line that breaks a rule,
/// and the rule. Line 0 stands for a text that is too long and for want of memory.
pub fn read_script(alloc: Global, octets: &[u8]) -> Result<Script, Refused>
    // What is read is what the text says, and a refusal is the text's, unless memory ran out.
    ensures read { AnswersUnless (λ e. e.why ≡ OutOfMemory tt) (λ s. s.lines) result (script_reading octets.now) }
    ensures memory { IfErr result (λ e. e.why ≡ OutOfMemory tt → e.line ≡ 0) }
{
    fits(octets)?;
    let mut lines = List::new(alloc);
    let mut number = 1;
    let mut rest = octets;
    while let Some((text, after)) = first_line(rest) {
        let said = match line_in(number, text) {
            Ok(said) => said,
            Err(why) => return Err(refused_at(number, why)),
        };
        if let Err(why) = add(&mut lines, number, said) {
            return Err(refused_at(number, why));
        }
        number += 1;
        rest = after;
    }
    Ok(Script { lines })
}
