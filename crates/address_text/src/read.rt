//! A text of units is read line by line.

ghost use Rattle.std.specs.Prelude.{◌≡◌, ◌≤◌, ◌<◌, ◌++◌, ◌⊎◌, length, true, Err, OnOk, IfOk, IfErr};
ghost use Rattle.std.specs.Option.{option_to_list};
ghost use Rattle.knx_model.specs.Answers.{AnswersUnless};
ghost use Rattle.knx_model.specs.declared.refusal.Why.TheVariants.{NoMemory as OutOfMemory, TooMany};
ghost use Rattle.address_text.specs.UnitText.{unit_reading, units_in, losses_in, is_unit};

use crate::line::{UnitLine, line_in};
use address_world::UnitScript;
use knx_model::{LONGEST_TEXT, List, Refused, Why, first_line, refused_at};
use std::alloc::Global;

/// The greatest number of units.
const MOST_UNITS: u32 = 255;

/// Adds what a line says.
fn add(script: &mut UnitScript, said: Option<UnitLine>) -> Result<(), Why>
    ensures units { OnOk result (script.new.units ≡ script.old.units ++ units_in (option_to_list said)) }
    ensures losses { OnOk result (script.new.losses ≡ script.old.losses ++ losses_in (option_to_list said)) }
    ensures room { OnOk result (is_unit said ≡ true → length script.old.units < 255) }
    ensures cause { IfErr result (λ why. (why ≡ OutOfMemory tt) ⊎ ((why ≡ TooMany 255) × (is_unit said ≡ true) × (255 ≤ length script.old.units))) }
{
    match said {
        None => Ok(()),
        Some(UnitLine::OfUnit(unit)) => {
            if script.units.len() >= MOST_UNITS as usize {
                return Err(Why::TooMany { limit: MOST_UNITS });
            }
            script.units.push(unit)?;
            Ok(())
        }
        Some(UnitLine::OfLoss(loss)) => {
            script.losses.push(loss)?;
            Ok(())
        }
    }
}

/// A text has at most 4,194,304 octets; a longer one is refused at line 0.
fn fits(octets: &[u8]) -> Result<(), Refused>
    ensures fits { OnOk result (length octets.now ≤ 4194304) }
    ensures longer { IfErr result (λ e. unit_reading octets.now ≡ Err e) }
    ensures line { IfErr result (λ e. e.line ≡ 0) }
{
    if octets.len() > LONGEST_TEXT as usize {
        return Err(Refused {
            line: 0,
            why: Why::TooMany {
                limit: LONGEST_TEXT,
            },
        });
    }
    Ok(())
}

/// The units and the losses of a text of at most 4,194,304 octets and 255 units, or why it is refused: the least line that breaks a rule, and the
/// rule. Line 0 stands for a text that is too long and for want of memory.
pub fn read_units(alloc: Global, octets: &[u8]) -> Result<UnitScript, Refused>
    // What is read is what the text says, and a refusal is the text's, unless memory ran out.
    ensures read { AnswersUnless (λ e. e.why ≡ OutOfMemory tt) (λ s. (s.units, s.losses)) result (unit_reading octets.now) }
    ensures few { IfOk result (λ s. length s.units ≤ 255) }
    ensures memory { IfErr result (λ e. e.why ≡ OutOfMemory tt → e.line ≡ 0) }
{
    fits(octets)?;
    let mut script = UnitScript {
        units: List::new(alloc),
        losses: List::new(alloc),
    };
    let mut number = 1;
    let mut rest = octets;
    while let Some((text, after)) = first_line(rest) {
        let said = match line_in(text) {
            Ok(said) => said,
            Err(why) => return Err(refused_at(number, why)),
        };
        if let Err(why) = add(&mut script, said) {
            return Err(refused_at(number, why));
        }
        number += 1;
        rest = after;
    }
    Ok(script)
}
