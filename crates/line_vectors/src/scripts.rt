//! What is said of a place.

use knx_model::{IndAddr, ScriptLine, ScriptWhat};
use script_index::ScriptIndex;
use std::test::Fail;

/// Of two equal lines the earlier holds.
#[test]
fn the_earlier_line_holds(rt: HostRuntime) -> Result<(), Fail> {
    let device = IndAddr { raw: 0x1105 };
    let mut lines = Vec::new(rt.alloc());
    lines.push(ScriptLine {
        line: 1,
        what: ScriptWhat::LoseUp(3),
    })?;
    lines.push(ScriptLine {
        line: 2,
        what: ScriptWhat::Cut { device, n: 2, k: 7 },
    })?;
    lines.push(ScriptLine {
        line: 3,
        what: ScriptWhat::Cut { device, n: 2, k: 9 },
    })?;
    lines.push(ScriptLine {
        line: 4,
        what: ScriptWhat::Refuse { n: 1, status: 0x24 },
    })?;
    let index = ScriptIndex::new(rt.alloc(), lines.as_slice())?;
    assert!(rt; index.loses_up(3));
    assert!(rt; !index.loses_down(3));
    assert!(rt; !index.loses_up(2));
    assert_eq!(rt; index.cuts(device, 2), Some(7));
    assert_eq!(rt; index.refuses(1), Some(0x24));
    assert_eq!(rt; index.refuses(2), None);
    Ok(())
}
