//! `decode HEX`: the frame of octets.

ghost use Rattle.std.specs.Prelude.{◌≡◌, ℕ, List, Some, map, string_bytes};
ghost use Rattle.std.specs.Option.{option_map};
ghost use Rattle.frame_text.specs.FrameText.{IsFrameText, hex_word};
ghost use Rattle.call_parts.specs.Ending.{Is, Replies, TellsOf, end_told};
ghost use Rattle.call_parts.specs.Names.{the_word};
ghost use Rattle.knx_top.specs.commands.decode.{TellsOfFrame, decode_word, octets_or_usage};
ghost use Rattle.knx_top.specs.Complete.{IsToldWhole};
ghost use Rattle.knx_model.specs.Outside.{Rose, SinkNow};
ghost use Rattle.call_words.specs.declared.status.Status.{Status};

use call_parts::End;
use call_words::Stop;
use frame_text::{frame_text, hex_in};
use knx_model::Octets;
use std::alloc::Global;

/// The word of `decode`.
pub fn decode_word(words: &[String]) -> Option<&str>
    ensures { option_map the_word result ≡ decode_word (map string_bytes words.now) }
{
    match words {
        [word] => Some(word.as_str()),
        _ => None,
    }
}

/// The frame of the octets that the word writes.
fn told(alloc: Global, word: &str) -> Result<Octets, Stop>
    ensures { TellsOf IsFrameText (octets_or_usage (hex_word word.now)) (end_told result) }
{
    let Some(octets) = hex_in(alloc, word.as_bytes())? else {
        return Err(Stop::Usage);
    };
    let text = frame_text(alloc, octets.as_slice())?;
    Ok(text)
}

/// A call of `decode`.
pub fn call(alloc: Global, word: &str) -> End
    ensures { TellsOfFrame word.now (Is result) }
{
    End::told(told(alloc, word))
}

/// Where the word is one of octets and no count rose, the whole text is written with status 0, or there was no memory.
pub fn valid_input_is_told()
    ensures { (word octets : List ℕ) (out out' : SinkNow) (ending : Status) → hex_word word ≡ Some octets → ¬ Rose out.faults out'.faults → TellsOfFrame word (Replies out out' ending) → IsToldWhole (IsFrameText octets) out out' ending }
{}
