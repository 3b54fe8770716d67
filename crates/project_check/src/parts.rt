//! A text is judged statement by statement, and a long one in parts side by side.

ghost use Rattle.std.specs.Prelude.{◌≤◌, List, length, IfOk};
ghost use Rattle.std.specs.Thread.{IsSync};
ghost use Rattle.knx_model.specs.declared.project.Statement.{Statement as Stated};
ghost use Rattle.project_check.specs.Parts.{IsFirstBetween};
ghost use Rattle.project_check.specs.declared.rules.Whole.{Whole as Known};

use crate::earlier::Earlier;
use crate::rules::Whole;
use knx_model::{Refused, Statement};
use std::alloc::{AllocError, Global};
use std::thread::{Threads, join};

/// The statements that one thread judges; more of them are cut in two.
const LONGEST_PART: usize = 1 << 16;

/// The first statement from one place up to another that breaks a rule, where no statement before the first place breaks one. Those
/// before it are added to what is known of earlier statements, and not judged.
pub fn first_between<'a>(
    alloc: Global,
    whole: &Whole<'_, 'a>,
    statements: &'a [Statement<'a>],
    from: usize,
    to: usize,
) -> Result<Option<Refused>, AllocError>
    requires { (from ≤ to) × (to ≤ length statements.now) }
    ensures { IfOk result (IsFirstBetween whole.now statements.now from to) }
{
    let mut earlier = Earlier::new(alloc)?;
    for (place, statement) in statements[..to].iter().enumerate() {
        let repeated = earlier.add(statement)?;
        if place < from {
            continue;
        }
        if let Some(why) = whole.first_rule(place, repeated, &statement.what) {
            return Ok(Some(Refused {
                line: statement.line,
                why,
            }));
        }
    }
    Ok(None)
}

/// What judges the parts of a text. It is a trait so that the type which threads share names no lifetime: else nothing would be known
/// of what they find.
trait Judge {
    /// What it knows of the whole text.
    ghost known: { Self → Known };

    /// The statements of the text.
    ghost text: { Self → List Stated };

    /// The first statement from one place up to another that breaks a rule, where no statement before the first place breaks one.
    fn first_in(&self, alloc: Global, from: usize, to: usize) -> Result<Option<Refused>, AllocError>
        requires { (from ≤ to) × (to ≤ length (text self.now)) }
        ensures { IfOk result (IsFirstBetween (known self.now) (text self.now) from to) };
}

/// A text, and what is known of it as a whole.
#[derive(Clone, Copy)]
struct Text<'c, 'b, 'a> {
    whole: &'c Whole<'b, 'a>,
    statements: &'a [Statement<'a>],
}

impl Judge for Text<'_, '_, '_> {
    ghost known = { λ text. text.whole.now };

    ghost text = { λ text. text.statements.now };

    fn first_in(
        &self,
        alloc: Global,
        from: usize,
        to: usize,
    ) -> Result<Option<Refused>, AllocError> {
        first_between(alloc, self.whole, self.statements, from, to)
    }
}

/// The same as `first_in`. A long part is cut in two, and each half is judged in a thread of its own.
#[cycle(halves)]
fn first_in_halves<R: Threads + Sync, J: Judge + Sync>(
    rt: &R,
    alloc: Global,
    judge: &J,
    from: usize,
    to: usize,
) -> Result<Option<Refused>, AllocError>
    requires { (from ≤ to) × (to ≤ length (J.text judge.now)) }
    ensures { IfOk result (IsFirstBetween (J.known judge.now) (J.text judge.now) from to) }
{
    if to - from <= LONGEST_PART {
        return judge.first_in(alloc, from, to);
    }
    let middle = from + (to - from) / 2;
    let (found, later) = join(
        rt,
        || -> Result<Option<Refused>, AllocError>
            requires { IsSync R.row × IsSync J.row × (from ≤ middle) × (middle ≤ length (J.text judge.now)) }
            ensures { IfOk result (IsFirstBetween (J.known judge.entry.now) (J.text judge.entry.now) from middle) }
        { first_in_halves(rt, alloc, judge, from, middle) },
        || -> Result<Option<Refused>, AllocError>
            requires { IsSync R.row × IsSync J.row × (middle ≤ to) × (to ≤ length (J.text judge.now)) }
            ensures { IfOk result (IsFirstBetween (J.known judge.entry.now) (J.text judge.entry.now) middle to) }
        { first_in_halves(rt, alloc, judge, middle, to) },
    );
    match found? {
        Some(refused) => Ok(Some(refused)),
        None => later,
    }
}

/// The first statement that breaks a rule. The parts of a long text are judged side by side, in threads of their own.
pub fn first_in_threads<'a, R: Threads + Sync>(
    rt: &R,
    alloc: Global,
    whole: &Whole<'_, 'a>,
    statements: &'a [Statement<'a>],
) -> Result<Option<Refused>, AllocError>
    ensures { IfOk result (IsFirstBetween whole.now statements.now 0 (length statements.now)) }
{
    let text = Text { whole, statements };
    first_in_halves(rt, alloc, &text, 0, statements.len())
}
