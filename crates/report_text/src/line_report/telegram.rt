//! The lines of the group telegrams: those of the run, and those that were heard.

ghost use Rattle.std.specs.Prelude.{◌≡◌, ◌++◌, ◌∷◌, [], codes, OnOk};
ghost use Rattle.std.specs.Option.{option_map};
ghost use Rattle.std.specs.List.{filter_map, flat_map, range_with_len, join_with_byte};
ghost use Rattle.knx_model.specs.Addresses.{device_text, group_text};
ghost use Rattle.call_words.specs.ReportText.{first_or_open};
ghost use Rattle.call_words.specs.Printed.{end_of_turn, turn_line, service_words, heard_line};
ghost use Rattle.knx_model.specs.TextLines.{value_text};
ghost use Rattle.report_text.specs.Behind.{behind};

use crate::pieces::put_value;
use knx_model::{
    GroupService, NoMemory, Octets, Value, put_device_word, put_group_word, put_number_word,
    put_word,
};
use line_model::{Indication, LogEntry, LogWhat};
use std::alloc::Global;

/// How an entry ends the telegram.
fn end_by(turn: u64, what: &LogWhat) -> Option<&'static str>
    ensures { option_map (λ word. word.now ∷ []) result ≡ end_of_turn turn what.now }
{
    match what {
        LogWhat::Sent(told) if u64::from(*told) == turn => Some("sent"),
        LogWhat::Lost(told) if u64::from(*told) == turn => Some("lost"),
        _ => None,
    }
}

/// How the telegram ends by the log.
fn end_in(log: &[LogEntry], turn: u64) -> &'static str
    ensures { first_or_open (filter_map (λ entry. end_of_turn turn entry.what) log.now) ≡ result.now ∷ [] }
{
    for entry in log {
        if let Some(word) = end_by(turn, &entry.what) {
            return word;
        }
    }
    "open"
}

/// Appends the line of a telegram of the run.
fn put_turn(alloc: Global, out: &mut Octets, log: &[LogEntry], turn: u64) -> Result<(), NoMemory>
    ensures { OnOk result (out.new ≡ out.old ++ turn_line log.now turn) }
{
    let end = end_in(log, turn);
    out.append(b"group")?;
    put_number_word(alloc, out, turn)?;
    put_word(out, end.as_bytes())?;
    out.push(b'\n')
}

/// Appends the lines of so many telegrams of the run.
pub fn put_turns(
    alloc: Global,
    out: &mut Octets,
    log: &[LogEntry],
    turns: u32,
) -> Result<(), NoMemory>
    ensures { OnOk result (out.new ≡ out.old ++ flat_map (turn_line log.now) (range_with_len 1 turns)) }
{
    for place in 0..turns {
        put_turn(alloc, out, log, u64::from(place) + 1)?;
    }
    Ok(())
}

/// Appends a value behind a word.
fn put_value_behind(out: &mut Octets, word: &str, value: &Value) -> Result<(), NoMemory>
    ensures { OnOk result (out.new ≡ out.old ++ behind (word.now ∷ value_text value.now ∷ [])) }
{
    put_word(out, word.as_bytes())?;
    out.push(b' ')?;
    put_value(out, value)
}

/// Appends the words of a service.
fn put_service(out: &mut Octets, service: &GroupService) -> Result<(), NoMemory>
    ensures { OnOk result (out.new ≡ out.old ++ behind (service_words service.now)) }
{
    match service {
        GroupService::Read => put_word(out, b"read"),
        GroupService::Write(value) => put_value_behind(out, "write", value),
        GroupService::Response(value) => put_value_behind(out, "response", value),
    }
}

/// Appends the words of a telegram that was heard, before its service.
fn put_heard_words(alloc: Global, out: &mut Octets, heard: &Indication) -> Result<(), NoMemory>
    ensures { OnOk result (out.new ≡ out.old ++ join_with_byte 32 (codes "heard" ∷ group_text heard.now.group ∷ device_text heard.now.«from» ∷ [])) }
{
    out.append(b"heard")?;
    put_group_word(alloc, out, heard.group)?;
    put_device_word(alloc, out, heard.from)
}

/// Appends the line of a telegram that was heard.
fn put_heard(alloc: Global, out: &mut Octets, heard: &Indication) -> Result<(), NoMemory>
    ensures { OnOk result (out.new ≡ out.old ++ heard_line heard.now) }
{
    put_heard_words(alloc, out, heard)?;
    put_service(out, &heard.service)?;
    out.push(b'\n')
}

/// Appends the lines of the telegrams that were heard.
pub fn put_all_heard(alloc: Global, out: &mut Octets, all: &[Indication]) -> Result<(), NoMemory>
    ensures { OnOk result (out.new ≡ out.old ++ flat_map heard_line all.now) }
{
    for heard in all {
        put_heard(alloc, out, heard)?;
    }
    Ok(())
}
