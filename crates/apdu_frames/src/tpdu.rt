//! The frames of the transport layer (ISO/IEC 14543-3-2): data, unnumbered `000000aa` or numbered `01ssssaa`, with the upper two
//! bits of a service's code in the first octet, and the control frames of one octet.

ghost use Rattle.std.specs.Prelude.{◌≡◌, ◌+◌, ◌*◌, ◌/◌, ◌%◌, ◌<◌, ◌≤◌, ◌^◌, [], ◌∷◌, ◌++◌, length, IfOk, IfErr, Ok};
ghost use Rattle.std.specs.Result.{result_ok};
ghost use Rattle.knx_model.specs.declared.frames.tpdu.Tpdu.{Tpdu as Frame};
ghost use Rattle.knx_model.specs.Apdu.{Reads, Written, WrittenApdu, IsInRange, IsApduInRange, IsLeastBroken, code_of};
ghost use Rattle.knx_model.specs.ApduReading.{tpdu_in};

use crate::{control, services};
use knx_model::{Apdu, ApduOctets, Tpdu, TpduRefused};

/// The frame that the octets are (ISO/IEC 14543-3-2, transport layer), or the least rule that they break: `Empty` for none, `Code` for a
/// first octet or a service that isn't in the table, `Length` and `Count` for a number of octets that its row doesn't allow.
pub fn decode(octets: &[u8]) -> Result<Tpdu, TpduRefused>
    ensures read { IfOk result (λ frame. Reads octets.now frame) }
    ensures only { (frame : Frame) → Reads octets.now frame → result ≡ Ok frame }
    ensures refused { IfErr result (λ why. IsLeastBroken why octets.now) }
    ensures gives { result_ok result ≡ tpdu_in octets.now }
{
    // That no other frame is read follows from what `frame_of` answers, whichever return it took: so it is shown here, once.
    frame_of(octets)
}

fn frame_of(octets: &[u8]) -> Result<Tpdu, TpduRefused>
    ensures read { IfOk result (λ frame. Reads octets.now frame) }
    ensures refused { IfErr result (λ why. IsLeastBroken why octets.now) }
{
    match octets {
        [] => Err(TpduRefused::Empty),
        [first] => control::read(*first).ok_or(TpduRefused::Code),
        [first, second, rest @ ..] => {
            let (first, second) = (*first, *second);
            if control::is_form(first) {
                return Err(TpduRefused::Length);
            }
            let code = code_at(first, second);
            if first < 0x04 {
                Ok(Tpdu::Unnumbered(services::decode(code, rest)?))
            } else if control::is_numbered(first) {
                Ok(Tpdu::Numbered {
                    number: control::sequence_number(first),
                    apdu: services::decode(code, rest)?,
                })
            } else {
                Err(TpduRefused::Code)
            }
        }
    }
}

/// The ten bits that name the service.
fn code_at(first: u8, second: u8) -> u16
    ensures value { result ≡ code_of first second }
    ensures fits { result < 2 ^ 10 }
{
    (first as u16 & 0x03) << 8 | second as u16
}

/// The octets of the frame (ISO/IEC 14543-3-2, transport layer), with a short value of six bits, a long one of 1 to 14 octets, and the
/// counts that its row allows.
pub fn encode(tpdu: &Tpdu) -> ApduOctets
    requires { IsInRange tpdu.now }
    ensures written { result ≡ Written tpdu.now }
    ensures reads { Reads result tpdu.now }
{
    match tpdu {
        Tpdu::Unnumbered(apdu) => data(0x00, apdu),
        Tpdu::Numbered { number, apdu } => data(control::NUMBERED >> 2 | *number, apdu),
        Tpdu::Connect => ApduOctets::from_slice(&[control::CONNECT]),
        Tpdu::Disconnect => ApduOctets::from_slice(&[control::DISCONNECT]),
        Tpdu::Ack(number) => control::ack(*number),
        Tpdu::Nak(number) => control::nak(*number),
    }
}

/// A service behind the upper six bits of the first octet.
fn data(upper: u8, apdu: &Apdu) -> ApduOctets
    requires range { IsApduInRange apdu.now }
    requires upper { upper < 64 }
    ensures { result ≡ WrittenApdu upper apdu.now }
{
    let [high, low] = services::code_of(apdu).to_be_bytes();
    let mut out = ApduOctets::from_slice(&[upper << 2 | high, low]);
    services::encode_rest(&mut out, apdu);
    out
}
