//! A text is read line by line, and a long one in parts side by side.

ghost use Rattle.std.specs.Prelude.{◌≡◌, ◌≤◌, ◌<◌, ◌+◌, ◌++◌, [], length, Err, OnOk, IfOk, IfErr, IfSome};
ghost use Rattle.std.specs.List.{count_by};
ghost use Rattle.std.specs.Str.Lines.{lines};
ghost use Rattle.std.specs.Thread.{IsSync};
ghost use Rattle.knx_model.specs.Answers.{AnswersUnless};
ghost use Rattle.knx_model.specs.Statements.{reading};
ghost use Rattle.knx_model.specs.Words.{is_feed};
ghost use Rattle.knx_model.specs.declared.refusal.Why.TheVariants.{NoMemory as OutOfMemory};
ghost use Rattle.project_text.specs.Reading.{IsJoined, IsRead};

use crate::grammar::grammar_of;
use crate::line::line_in;
use crate::project::Project;
use knx_model::{
    Grammar, LONGEST_TEXT, List, NoMemory, Refused, Statement, Why, first_line, has_plain_lines,
    refused_at,
};
use memchr::memrchr;
use std::alloc::Global;
use std::thread::{Threads, join};

/// The octets of a text that one thread reads; a longer one is cut. The longest text of all is cut into eight parts, though a cut stands
/// before the middle.
const LONGEST_PART: usize = 520 << 10;

/// The fewest octets of most lines. For so many octets of a long text there is room for a statement from the beginning, since room that
/// grows is copied.
const SHORT_LINE: usize = 16;

/// A text has at most 4,194,304 octets; a longer one is refused at line 0.
fn fits(octets: &[u8]) -> Result<(), Refused>
    ensures fits { OnOk result (length octets.now ≤ 4194304) }
    ensures longer { IfErr result (λ e. reading octets.now ≡ Err e) }
    ensures line { IfErr result (λ e. e.line ≡ 0) }
{
    if octets.len() > LONGEST_TEXT as usize {
        return Err(Refused {
            line: 0,
            why: Why::TooMany {
                limit: LONGEST_TEXT,
            },
        });
    }
    Ok(())
}

/// No statements, and room for so many.
fn with_room<'a>(alloc: Global, room: usize) -> Result<List<Statement<'a>>, Refused>
    ensures none { IfOk result (λ statements. statements ≡ []) }
    ensures memory { IfErr result (λ e. e ≡ record { line = 0; why = OutOfMemory tt }) }
{
    match Vec::with_capacity(alloc, room) {
        Ok(statements) => Ok(List::from_vec(statements)),
        Err(error) => Err(Refused {
            line: 0,
            why: Why::NoMemory(NoMemory::from(error)),
        }),
    }
}

/// The statements of lines of a text of this grammar, numbered from `first`; or the first line that breaks a rule, and the rule. There is
/// room for so many statements from the beginning.
fn read_lines(
    alloc: Global,
    grammar: Grammar,
    first: u32,
    octets: &[u8],
    room: usize,
) -> Result<List<Statement<'_>>, Refused>
    requires { first + length octets.now ≤ 4194305 }
    ensures { IsRead grammar first octets.now result }
{
    let mut statements = with_room(alloc, room)?;
    let is_plain = has_plain_lines(octets);
    let mut line = first;
    let mut rest = octets;
    while let Some((text, after)) = first_line(rest) {
        if let Err(why) = line_in(alloc, grammar, &mut statements, line, text, is_plain) {
            return Err(refused_at(line, why));
        }
        line += 1;
        rest = after;
    }
    Ok(statements)
}

/// A text cut in two behind the last line feed of its first half, where there is one.
fn halves(octets: &[u8]) -> Option<(&[u8], &[u8])>
    ensures lines { IfSome result (λ x. lines octets.now ≡ lines x.0.now ++ lines x.1.now) }
    ensures feeds { IfSome result (λ x. length (lines x.0.now) ≡ count_by is_feed x.0.now) }
    ensures whole { IfSome result (λ x. length octets.now ≡ length x.0.now + length x.1.now) }
    ensures front { IfSome result (λ x. 0 < length x.0.now) }
    ensures back { IfSome result (λ x. 0 < length x.1.now) }
{
    let at = memrchr(b'\n', &octets[..octets.len() / 2])?;
    Some(octets.split_at(at + 1))
}

/// How many line feeds there are.
fn feeds_in(octets: &[u8]) -> usize
    ensures { result ≡ count_by is_feed octets.now }
{
    let mut feeds = 0;
    for octet in octets {
        feeds += usize::from(*octet == b'\n');
    }
    feeds
}

/// The number of the line behind these, of which the first has this number.
fn line_behind(first: u32, octets: &[u8]) -> u32
    requires { first + length octets.now ≤ 4194305 }
    ensures { result ≡ first + count_by is_feed octets.now }
{
    first + feeds_in(octets) as u32
}

/// What lines say, and behind it what later lines say; or the first refusal of the two.
fn joined<'a>(
    said: Result<List<Statement<'a>>, Refused>,
    later: Result<List<Statement<'a>>, Refused>,
) -> Result<List<Statement<'a>>, Refused>
    ensures { IsJoined said.entry later.entry result }
{
    let mut all = said?.into_vec();
    let mut more = later?.into_vec();
    match all.append(&mut more) {
        Ok(()) => Ok(List::from_vec(all)),
        Err(error) => Err(Refused {
            line: 0,
            why: Why::NoMemory(NoMemory::from(error)),
        }),
    }
}

/// The same as `read_lines`. A long text is cut in two, and each half is read in a thread of its own.
#[cycle(parts)]
fn read_parts<'a, R: Threads + Sync>(
    rt: &R,
    alloc: Global,
    grammar: Grammar,
    first: u32,
    octets: &'a [u8],
    room: usize,
) -> Result<List<Statement<'a>>, Refused>
    requires { first + length octets.now ≤ 4194305 }
    ensures { IsRead grammar first octets.now result }
{
    if octets.len() <= LONGEST_PART {
        return read_lines(alloc, grammar, first, octets, room);
    }
    let Some((front, back)) = halves(octets) else {
        return read_lines(alloc, grammar, first, octets, room);
    };
    let more = back.len() / SHORT_LINE;
    let (said, later) = join(
        rt,
        || -> Result<List<Statement<'_>>, Refused>
            requires { IsSync R.row × (first + length front.now ≤ 4194305) }
            ensures { IsRead grammar first front.entry.now result }
        { read_parts(rt, alloc, grammar, first, front, room) },
        || -> Result<List<Statement<'_>>, Refused>
            requires { IsSync R.row × (first + length front.now + length back.now ≤ 4194305) }
            ensures { IsRead grammar (first + count_by is_feed front.entry.now) back.entry.now result }
        { read_parts(rt, alloc, grammar, line_behind(first, front), back, more) },
    );
    joined(said, later)
}

/// The statements of a text of at most 4,194,304 octets, or why it is refused: the least line that breaks a rule, and the
/// rule. Line 0 stands for a text that is too long and for want of memory.
pub fn read_project(alloc: Global, octets: &[u8]) -> Result<Project<'_>, Refused>
    // What is read is what the text says, and a refusal is the text's, unless memory ran out.
    ensures read { AnswersUnless (λ e. e.why ≡ OutOfMemory tt) (λ p. p.statements) result (reading octets.now) }
    ensures memory { IfErr result (λ e. e.why ≡ OutOfMemory tt → e.line ≡ 0) }
{
    fits(octets)?;
    let grammar = grammar_of(octets);
    match read_lines(alloc, grammar, 1, octets, 0) {
        Ok(statements) => Ok(Project { statements }),
        Err(refused) => Err(refused),
    }
}

/// The same as `read_project`. The parts of a long text are read side by side, in threads of their own.
pub fn read_project_in_threads<'a, R: Threads + Sync>(
    rt: &R,
    alloc: Global,
    octets: &'a [u8],
) -> Result<Project<'a>, Refused>
    ensures read { AnswersUnless (λ e. e.why ≡ OutOfMemory tt) (λ p. p.statements) result (reading octets.now) }
    ensures memory { IfErr result (λ e. e.why ≡ OutOfMemory tt → e.line ≡ 0) }
{
    fits(octets)?;
    let grammar = grammar_of(octets);
    match read_parts(rt, alloc, grammar, 1, octets, octets.len() / SHORT_LINE) {
        Ok(statements) => Ok(Project { statements }),
        Err(refused) => Err(refused),
    }
}
