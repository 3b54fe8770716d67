//! A script that is read.

ghost use Rattle.std.specs.Prelude.{IsTrue};
ghost use Rattle.knx_model.specs.ScriptText.{are_script_lines, script_lines_ascend};

use knx_model::{List, ScriptLine};

/// The lines of a script that say something. Each can be spelled, and their numbers ascend from 1 and are at most 65,536.
#[derive(Drop)]
pub struct Script {
    pub lines: List<ScriptLine>,
    pub ghost spelled: { IsTrue (are_script_lines lines) },
    pub ghost numbered: { IsTrue (script_lines_ascend lines) },
}
