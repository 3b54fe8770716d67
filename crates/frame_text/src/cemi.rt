//! The line of a frame of the link layer (KNX standard 3/6/3, common EMI).

ghost use Rattle.std.specs.Prelude.{◌≡◌, ◌∷◌, [], ◌++◌, OnOk, codes};
ghost use Rattle.std.specs.Fmt.{decimal};
ghost use Rattle.frame_text.specs.Spaced.{spaced};
ghost use Rattle.frame_text.specs.FrameText.{code_word, destination_word, individual_word, destination_text, error_words, cemi_words, cemi_line, cemi_refusal_line};

use crate::pieces::put_refusal;
use knx_model::{
    CemiRefused, GroupAddr, IndAddr, Ldata, LdataCode, NoMemory, Octets, put_device_word,
    put_group_word, put_number_word, put_word,
};
use std::alloc::Global;

fn code_word(code: LdataCode) -> &'static str
    ensures { result.now ≡ code_word code }
{
    match code {
        LdataCode::Req => "req",
        LdataCode::Con => "con",
        LdataCode::Ind => "ind",
    }
}

fn destination_word(group: bool) -> &'static str
    ensures { result.now ≡ destination_word group }
{
    if group { "group" } else { "individual" }
}

fn put_destination(alloc: Global, out: &mut Octets, group: bool, raw: u16) -> Result<(), NoMemory>
    ensures { OnOk result (out.new ≡ out.old ++ 32 ∷ destination_text group raw) }
{
    if group {
        put_group_word(alloc, out, GroupAddr { raw })
    } else {
        put_device_word(alloc, out, IndAddr { raw })
    }
}

/// Appends the kind of the destination, the source and the destination.
fn put_addresses(alloc: Global, out: &mut Octets, frame: &Ldata) -> Result<(), NoMemory>
    ensures { OnOk result (out.new ≡ out.old ++ spaced (destination_word frame.now.group ∷ individual_word frame.now.source ∷ destination_text frame.now.group frame.now.destination ∷ [])) }
{
    let source = IndAddr { raw: frame.source };
    put_word(out, destination_word(frame.group).as_bytes())?;
    put_device_word(alloc, out, source)?;
    put_destination(alloc, out, frame.group, frame.destination)
}

/// Appends priority and hop count.
fn put_control(alloc: Global, out: &mut Octets, priority: u8, hops: u8) -> Result<(), NoMemory>
    ensures { OnOk result (out.new ≡ out.old ++ spaced (codes "priority" ∷ decimal priority ∷ codes "hops" ∷ decimal hops ∷ [])) }
{
    put_word(out, b"priority")?;
    put_number_word(alloc, out, u64::from(priority))?;
    put_word(out, b"hops")?;
    put_number_word(alloc, out, u64::from(hops))
}

fn put_error(out: &mut Octets, error: bool) -> Result<(), NoMemory>
    ensures { OnOk result (out.new ≡ out.old ++ spaced (error_words error)) }
{
    if error {
        put_word(out, b"error")
    } else {
        Ok(())
    }
}

/// Appends what stands in the frame before its TPDU.
fn put_fields(alloc: Global, out: &mut Octets, frame: &Ldata) -> Result<(), NoMemory>
    ensures { OnOk result (out.new ≡ out.old ++ spaced (cemi_words frame.now)) }
{
    put_word(out, code_word(frame.code).as_bytes())?;
    put_addresses(alloc, out, frame)?;
    put_control(alloc, out, frame.priority, frame.hops)?;
    put_error(out, frame.error)
}

/// Appends the line of a frame.
#[tactic(auto, using(crate::proofs::Lines::line_spaced))]
pub fn put_line(alloc: Global, out: &mut Octets, frame: &Ldata) -> Result<(), NoMemory>
    ensures { OnOk result (out.new ≡ out.old ++ cemi_line frame.now) }
{
    out.append(b"cemi")?;
    put_fields(alloc, out, frame)?;
    out.push(b'\n')
}

/// Appends the line of a refusal.
#[tactic(auto, using(crate::proofs::Lines::line_spaced))]
pub fn put_refusal_line(alloc: Global, out: &mut Octets, why: CemiRefused) -> Result<(), NoMemory>
    ensures { OnOk result (out.new ≡ out.old ++ cemi_refusal_line why) }
{
    out.append(b"cemi")?;
    put_refusal(alloc, out, u64::from(why.number()), why.word())?;
    out.push(b'\n')
}
