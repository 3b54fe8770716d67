//! A line's statement is added to those before it: one function a statement.

ghost use Rattle.std.specs.Prelude.{◌≡◌, ◌==◌, ◌++◌, [], ◌∷◌, OnOk, IfErr, IsTrue};
ghost use Rattle.knx_model.specs.Words.{words, is_text};
ghost use Rattle.knx_model.specs.Statements.{is_spellable, are_spelled, statement, some_what, version_says, title_says, ga_says, device_says, object_says, link_says, send_says, flags_says, param_says, words_say, project_says};
ghost use Rattle.knx_model.specs.declared.project.TextVersion.{TextVersion as Version};
ghost use Rattle.knx_model.specs.declared.refusal.Why.TheVariants.{NoMemory as OutOfMemory};
ghost use Rattle.project_text.specs.Reading.{Added, with_line};

use crate::fields::{flags_field, groups_in, name_field, object_field, size_field, value_field};
use knx_model::{
    Grammar, List, Statement, TextVersion, What, Why, device_field, first_word, group_field_by,
    is_word, line_text, no_more, words_of_text,
};
use std::alloc::Global;

/// Adds the statement of a line.
fn add<'a>(statements: &mut List<Statement<'a>>, line: u32, what: What<'a>) -> Result<(), Why>
    ensures added { OnOk result (statements.new ≡ statements.old ++ statement line what.entry ∷ []) }
    ensures spelled { (version : Version) → IsTrue (is_spellable version what.entry) → IsTrue (are_spelled version statements.old) → OnOk result (IsTrue (are_spelled version statements.new)) }
    ensures memory { IfErr result (λ why. why ≡ OutOfMemory tt) }
{
    statements.push(Statement { line, what })?;
    Ok(())
}

/// `project NAME`
#[tactic(auto, unfolding(knx_model::specs::Statements::title_says))]
fn add_title<'a>(statements: &mut List<Statement<'a>>, line: u32, rest: &'a [u8]) -> Result<(), Why>
    ensures read { Added result statements.new (with_line statements.old line (some_what (title_says (words rest.now)))) }
    ensures spelled { (version : Version) → IsTrue (are_spelled version statements.old) → OnOk result (IsTrue (are_spelled version statements.new)) }
{
    let (name, rest) = name_field(rest)?;
    no_more(rest)?;
    add(statements, line, What::Title(name))
}

/// `ga GA NAME`
#[tactic(auto, unfolding(knx_model::specs::Statements::ga_says))]
fn add_group<'a>(
    version: TextVersion,
    statements: &mut List<Statement<'a>>,
    line: u32,
    rest: &'a [u8],
) -> Result<(), Why>
    ensures read { Added result statements.new (with_line statements.old line (some_what (ga_says version (words rest.now)))) }
    ensures spelled { IsTrue (are_spelled version statements.old) → OnOk result (IsTrue (are_spelled version statements.new)) }
{
    let (group, rest) = group_field_by(version, rest)?;
    let (name, rest) = name_field(rest)?;
    no_more(rest)?;
    add(statements, line, What::Group { group, name })
}

/// `device IA MODEL`
#[tactic(auto, unfolding(knx_model::specs::Statements::device_says))]
fn add_device<'a>(
    statements: &mut List<Statement<'a>>,
    line: u32,
    rest: &'a [u8],
) -> Result<(), Why>
    ensures read { Added result statements.new (with_line statements.old line (some_what (device_says (words rest.now)))) }
    ensures spelled { (version : Version) → IsTrue (are_spelled version statements.old) → OnOk result (IsTrue (are_spelled version statements.new)) }
{
    let (device, rest) = device_field(rest)?;
    let (model, rest) = name_field(rest)?;
    no_more(rest)?;
    add(statements, line, What::Device { device, model })
}

/// `object IA N SIZE FLAGS`
#[tactic(auto, unfolding(knx_model::specs::Statements::object_says))]
fn add_object<'a>(
    statements: &mut List<Statement<'a>>,
    line: u32,
    rest: &'a [u8],
) -> Result<(), Why>
    ensures read { Added result statements.new (with_line statements.old line (some_what (object_says (words rest.now)))) }
    ensures spelled { (version : Version) → IsTrue (are_spelled version statements.old) → OnOk result (IsTrue (are_spelled version statements.new)) }
{
    let (device, rest) = device_field(rest)?;
    let (n, rest) = object_field(rest)?;
    let (size, rest) = size_field(rest)?;
    let (flags, rest) = flags_field(rest)?;
    no_more(rest)?;
    add(
        statements,
        line,
        What::Object {
            device,
            n,
            size,
            flags,
        },
    )
}

/// `link IA N GA`, with as many groups as the version lets it have
#[tactic(auto, unfolding(knx_model::specs::Statements::link_says))]
fn add_link<'a>(
    alloc: Global,
    version: TextVersion,
    statements: &mut List<Statement<'a>>,
    line: u32,
    rest: &'a [u8],
) -> Result<(), Why>
    ensures read { Added result statements.new (with_line statements.old line (some_what (link_says version (words rest.now)))) }
    ensures spelled { IsTrue (are_spelled version statements.old) → OnOk result (IsTrue (are_spelled version statements.new)) }
{
    let (device, rest) = device_field(rest)?;
    let (object, rest) = object_field(rest)?;
    let groups = groups_in(alloc, version, rest)?;
    add(
        statements,
        line,
        What::Link {
            device,
            object,
            groups,
        },
    )
}

/// `send IA N GA`, from version 2 on
#[tactic(auto, unfolding(knx_model::specs::Statements::send_says))]
fn add_send<'a>(
    version: TextVersion,
    statements: &mut List<Statement<'a>>,
    line: u32,
    rest: &'a [u8],
) -> Result<(), Why>
    ensures read { Added result statements.new (with_line statements.old line (some_what (send_says version (words rest.now)))) }
    ensures spelled { IsTrue (are_spelled version statements.old) → OnOk result (IsTrue (are_spelled version statements.new)) }
{
    match version {
        TextVersion::One => Err(Why::UnknownWord),
        TextVersion::Two => {
            let (device, rest) = device_field(rest)?;
            let (object, rest) = object_field(rest)?;
            let (group, rest) = group_field_by(version, rest)?;
            no_more(rest)?;
            add(
                statements,
                line,
                What::Send {
                    device,
                    object,
                    group,
                },
            )
        }
    }
}

/// `flags IA N FLAGS`
#[tactic(auto, unfolding(knx_model::specs::Statements::flags_says))]
fn add_flags<'a>(statements: &mut List<Statement<'a>>, line: u32, rest: &'a [u8]) -> Result<(), Why>
    ensures read { Added result statements.new (with_line statements.old line (some_what (flags_says (words rest.now)))) }
    ensures spelled { (version : Version) → IsTrue (are_spelled version statements.old) → OnOk result (IsTrue (are_spelled version statements.new)) }
{
    let (device, rest) = device_field(rest)?;
    let (object, rest) = object_field(rest)?;
    let (flags, rest) = flags_field(rest)?;
    no_more(rest)?;
    add(
        statements,
        line,
        What::Flags {
            device,
            object,
            flags,
        },
    )
}

/// `param IA NAME VALUE`
#[tactic(auto, unfolding(knx_model::specs::Statements::param_says))]
fn add_parameter<'a>(
    statements: &mut List<Statement<'a>>,
    line: u32,
    rest: &'a [u8],
) -> Result<(), Why>
    ensures read { Added result statements.new (with_line statements.old line (some_what (param_says (words rest.now)))) }
    ensures spelled { (version : Version) → IsTrue (are_spelled version statements.old) → OnOk result (IsTrue (are_spelled version statements.new)) }
{
    let (device, rest) = device_field(rest)?;
    let (name, rest) = name_field(rest)?;
    let (value, rest) = value_field(rest)?;
    no_more(rest)?;
    add(
        statements,
        line,
        What::Param {
            device,
            name,
            value,
        },
    )
}

/// `version 2`, in the first line with words
#[tactic(auto, unfolding(knx_model::specs::Statements::version_says))]
fn add_version<'a>(
    is_first: bool,
    statements: &mut List<Statement<'a>>,
    line: u32,
    rest: &'a [u8],
) -> Result<(), Why>
    ensures read { Added result statements.new (with_line statements.old line (some_what (version_says is_first (words rest.now)))) }
    ensures spelled { (version : Version) → IsTrue (are_spelled version statements.old) → OnOk result (IsTrue (are_spelled version statements.new)) }
{
    let (number, rest) = value_field(rest)?;
    no_more(rest)?;
    if is_first && number == 2 {
        add(statements, line, What::Version)
    } else {
        Err(Why::BadVersion)
    }
}

/// Adds the statement of these words, where there are any.
#[tactic(auto, unfolding(knx_model::specs::Statements::words_say))]
fn words_in<'a>(
    alloc: Global,
    grammar: Grammar,
    statements: &mut List<Statement<'a>>,
    line: u32,
    rest: &'a [u8],
) -> Result<(), Why>
    ensures read { Added result statements.new (with_line statements.old line (words_say grammar.version (line == grammar.first) (words rest.now))) }
    ensures spelled { IsTrue (are_spelled grammar.version statements.old) → OnOk result (IsTrue (are_spelled grammar.version statements.new)) }
{
    let version = grammar.version;
    match first_word(rest) {
        None => Ok(()),
        Some((word, rest)) => {
            if is_word(word, b"project") {
                add_title(statements, line, rest)
            } else if is_word(word, b"ga") {
                add_group(version, statements, line, rest)
            } else if is_word(word, b"device") {
                add_device(statements, line, rest)
            } else if is_word(word, b"object") {
                add_object(statements, line, rest)
            } else if is_word(word, b"link") {
                add_link(alloc, version, statements, line, rest)
            } else if is_word(word, b"flags") {
                add_flags(statements, line, rest)
            } else if is_word(word, b"param") {
                add_parameter(statements, line, rest)
            } else if is_word(word, b"send") {
                add_send(version, statements, line, rest)
            } else if is_word(word, b"version") {
                add_version(line == grammar.first, statements, line, rest)
            } else {
                Err(Why::UnknownWord)
            }
        }
    }
}

/// Adds the statement of a line to those of the lines before it, where the line says one; or answers the first rule that the line
/// breaks, or want of memory. A line that is known to be text isn't looked at again.
#[tactic(auto, unfolding(knx_model::specs::Statements::line_says))]
pub fn line_in<'a>(
    alloc: Global,
    grammar: Grammar,
    statements: &mut List<Statement<'a>>,
    line: u32,
    text: &'a [u8],
    is_plain: bool,
) -> Result<(), Why>
    requires { IsTrue is_plain → IsTrue (is_text text.now) }
    ensures read { Added result statements.new (with_line statements.old line (project_says grammar line text.now)) }
    ensures spelled { IsTrue (are_spelled grammar.version statements.old) → OnOk result (IsTrue (are_spelled grammar.version statements.new)) }
{
    let rest = if is_plain {
        words_of_text(text)?
    } else {
        line_text(text)?
    };
    words_in(alloc, grammar, statements, line, rest)
}
