//! The line of a TPDU (ISO/IEC 14543-3-2, transport layer).

ghost use Rattle.std.specs.Prelude.{◌≡◌, ◌∷◌, [], ◌++◌, OnOk, codes};
ghost use Rattle.frame_text.specs.Spaced.{spaced};
ghost use Rattle.frame_text.specs.FrameText.{tpdu_name, tpdu_fields, tpdu_words, tpdu_line, tpdu_refusal_line};

use crate::apdu::put_apdu;
use crate::pieces::put_refusal;
use knx_model::{NoMemory, Octets, Tpdu, TpduRefused, put_number_word, put_word};
use std::alloc::Global;

fn name_of(frame: &Tpdu) -> &'static str
    ensures { result.now ≡ tpdu_name frame.now }
{
    match frame {
        Tpdu::Connect => "connect",
        Tpdu::Disconnect => "disconnect",
        Tpdu::Ack(_) => "ack",
        Tpdu::Nak(_) => "nak",
        Tpdu::Unnumbered(_) => "unnumbered",
        Tpdu::Numbered { .. } => "numbered",
    }
}

fn put_fields(alloc: Global, out: &mut Octets, frame: &Tpdu) -> Result<(), NoMemory>
    ensures { OnOk result (out.new ≡ out.old ++ spaced (tpdu_fields frame.now)) }
{
    match frame {
        Tpdu::Connect => Ok(()),
        Tpdu::Disconnect => Ok(()),
        Tpdu::Ack(number) => put_number_word(alloc, out, u64::from(*number)),
        Tpdu::Nak(number) => put_number_word(alloc, out, u64::from(*number)),
        Tpdu::Unnumbered(apdu) => put_apdu(alloc, out, apdu),
        Tpdu::Numbered { number, apdu } => {
            put_number_word(alloc, out, u64::from(*number))?;
            put_apdu(alloc, out, apdu)
        }
    }
}

/// Appends the word of a form and its fields.
fn put_form(alloc: Global, out: &mut Octets, frame: &Tpdu) -> Result<(), NoMemory>
    ensures { OnOk result (out.new ≡ out.old ++ spaced (tpdu_words frame.now)) }
{
    put_word(out, name_of(frame).as_bytes())?;
    put_fields(alloc, out, frame)
}

/// Appends the line of a TPDU.
#[tactic(auto, using(crate::proofs::Lines::line_spaced))]
pub fn put_line(alloc: Global, out: &mut Octets, frame: &Tpdu) -> Result<(), NoMemory>
    ensures { OnOk result (out.new ≡ out.old ++ tpdu_line frame.now) }
{
    out.append(b"tpdu")?;
    put_form(alloc, out, frame)?;
    out.push(b'\n')
}

/// Appends the line of a refusal.
#[tactic(auto, using(crate::proofs::Lines::line_spaced))]
pub fn put_refusal_line(alloc: Global, out: &mut Octets, why: TpduRefused) -> Result<(), NoMemory>
    ensures { OnOk result (out.new ≡ out.old ++ tpdu_refusal_line why) }
{
    out.append(b"tpdu")?;
    put_refusal(alloc, out, u64::from(why.number()), why.word())?;
    out.push(b'\n')
}
