//! Frames of L_Data, standard and extended (KNX standard 3/6/3, common EMI): message code, additional information, control octets, source,
//! destination, length and TPDU.

ghost use Rattle.std.specs.Prelude.{◌≡◌, ◌+◌, ◌*◌, ◌<◌, ◌≤◌, length, drop, IfOk, IfErr, Ok};
ghost use Rattle.knx_model.specs.declared.frames.cemi.Ldata.{Ldata as Frame};
ghost use Rattle.knx_model.specs.Cemi.{Reads, ReadsBody, Written, IsInRange, IsLeastBroken};
ghost use Rattle.cemi_frames.specs.Refusing.{RefusesBody};

use crate::{code, control};
use knx_model::{ApduOctets, CemiRefused, Datagram, Ldata};

/// The octets before the additional information: the message code and how many octets that information has.
const PREFIX: usize = 2;
/// The octets of what follows the additional information, up to the length: control octets, source, destination and length.
const HEAD: usize = 7;
/// The fewest octets of a frame without additional information: its TPDU has at least one.
const LEAST: usize = PREFIX + HEAD + 1;

/// The frame that the octets are (KNX standard 3/6/3, common EMI), or the least rule that they break. Additional information is skipped.
#[tactic(auto, using(crate::proofs::Once::only_frame))]
pub fn decode(octets: &[u8]) -> Result<Ldata, CemiRefused>
    ensures read { IfOk result (λ frame. Reads octets.now frame) }
    ensures only { (frame : Frame) → Reads octets.now frame → result ≡ Ok frame }
    ensures refused { IfErr result (λ why. IsLeastBroken why octets.now) }
{
    // That no other frame is read follows from what `frame_of` answers, whichever return it took: so it is shown here, once.
    frame_of(octets)
}

#[tactic(auto, using(crate::proofs::Least::least_refused))]
fn frame_of(octets: &[u8]) -> Result<Ldata, CemiRefused>
    ensures read { IfOk result (λ frame. Reads octets.now frame) }
    ensures refused { IfErr result (λ why. IsLeastBroken why octets.now) }
{
    if octets.len() < PREFIX {
        return Err(CemiRefused::Short);
    }
    let skip = octets[1] as usize;
    if octets.len() < LEAST + skip {
        return Err(CemiRefused::Short);
    }
    body_of(octets[0], behind(octets, skip))
}

/// What follows additional information of so many octets.
fn behind(octets: &[u8], skip: usize) -> &[u8]
    requires { 2 + skip ≤ length octets.now }
    ensures { result.now ≡ drop (2 + skip) octets.now }
{
    &octets[PREFIX + skip..]
}

/// What follows the additional information.
fn body_of(code: u8, body: &[u8]) -> Result<Ldata, CemiRefused>
    requires { 8 ≤ length body.now }
    ensures read { IfOk result (λ frame. ReadsBody code body.now frame) }
    ensures refused { IfErr result (λ why. RefusesBody why code body.now) }
{
    let code = code::read(code).ok_or(CemiRefused::Code)?;
    let (first, second) = (body[0], body[1]);
    let is_standard = control::is_standard(first);
    if !is_standard && !control::has_no_format(second) {
        return Err(CemiRefused::Extended);
    }
    let tpdu = &body[HEAD..];
    if tpdu.len() != body[6] as usize + 1
        || is_standard && tpdu.len() > control::MOST_STANDARD_OCTETS
    {
        return Err(CemiRefused::Length);
    }
    if tpdu.len() > ApduOctets::CAPACITY {
        return Err(CemiRefused::Long);
    }
    Ok(Ldata {
        code,
        error: control::has_error(code, first),
        group: control::is_to_group(second),
        priority: control::priority_of(first),
        hops: control::hops_of(second),
        source: u16::from_be_bytes([body[2], body[3]]),
        destination: u16::from_be_bytes([body[4], body[5]]),
        tpdu: ApduOctets::from_slice(tpdu),
    })
}

/// The octets of the frame (KNX standard 3/6/3, common EMI), of low priority and hop count 6, and with source 0 for a request. The
/// frame is extended exactly where its TPDU has more than 16 octets.
#[tactic(auto, using(crate::proofs::Written::written_reads))]
pub fn encode(frame: &Ldata) -> Datagram
    requires { IsInRange frame.now }
    ensures written { result ≡ Written frame.now }
    ensures reads { Reads result frame.now }
{
    octets_of(frame)
}

/// The octets of a frame as a gateway writes them, whatever it was given to send.
pub fn octets_of(frame: &Ldata) -> Datagram
    ensures value { result ≡ Written frame.now }
    ensures least { 1 ≤ length result }
    ensures most { length result ≤ 290 }
{
    let mut out = Datagram::from_slice(&[
        code::octet_of(frame.code),
        0x00,
        control::first_of(frame),
        control::second_of(frame.group),
    ]);
    out.extend(&frame.source.to_be_bytes());
    out.extend(&frame.destination.to_be_bytes());
    out.extend(&[frame.tpdu.len().saturating_sub(1) as u8]);
    out.extend(frame.tpdu.as_slice());
    out
}
