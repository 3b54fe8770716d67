//! A_PropertyValue_Read, A_PropertyValue_Response and A_PropertyValue_Write (ISO/IEC 14543-3-1, application layer): object,
//! property, a count of four bits and a start of twelve, and then the octets.

ghost use Rattle.std.specs.Prelude.{◌≡◌, ◌+◌, ◌*◌, ◌/◌, ◌%◌, ◌<◌, ◌≤◌, ◌++◌, length, IfOk, IfErr};
ghost use Rattle.knx_model.specs.Apdu.{ReadsApdu, property_head, most_octets};
ghost use Rattle.apdu_frames.specs.Refusing.{RefusesApdu};

use crate::words::push_word;
use knx_model::{Apdu, ApduOctets, TpduRefused};

/// How many octets of a property's value a frame carries at most.
const MOST_OCTETS: usize = 10;

/// The first element that is meant, of twelve bits.
fn start_of(high: u8, low: u8) -> u16
    ensures { result ≡ 256 * (high % 16) + low }
{
    u16::from_be_bytes([high & 0x0F, low])
}

/// A_PropertyValue_Read has no octets.
pub fn decode_read(code: u16, rest: &[u8]) -> Result<Apdu, TpduRefused>
    requires { code ≡ 0x3D5 }
    ensures read { IfOk result (λ apdu. ReadsApdu code rest.now apdu) }
    ensures refused { IfErr result (λ why. RefusesApdu code rest.now why) }
{
    match rest {
        [object, property, high, low] => Ok(Apdu::PropertyRead {
            object: *object,
            property: *property,
            count: *high >> 4,
            start: start_of(*high, *low),
        }),
        _ => Err(TpduRefused::Length),
    }
}

/// A_PropertyValue_Response of at most 10 octets.
pub fn decode_response(code: u16, rest: &[u8]) -> Result<Apdu, TpduRefused>
    requires { code ≡ 0x3D6 }
    ensures read { IfOk result (λ apdu. ReadsApdu code rest.now apdu) }
    ensures refused { IfErr result (λ why. RefusesApdu code rest.now why) }
{
    match rest {
        [object, property, high, low, octets @ ..] if octets.len() <= MOST_OCTETS => {
            Ok(Apdu::PropertyResponse {
                object: *object,
                property: *property,
                count: *high >> 4,
                start: start_of(*high, *low),
                octets: ApduOctets::from_slice(octets),
            })
        }
        _ => Err(TpduRefused::Length),
    }
}

/// A_PropertyValue_Write of at most 10 octets.
pub fn decode_write(code: u16, rest: &[u8]) -> Result<Apdu, TpduRefused>
    requires { code ≡ 0x3D7 }
    ensures read { IfOk result (λ apdu. ReadsApdu code rest.now apdu) }
    ensures refused { IfErr result (λ why. RefusesApdu code rest.now why) }
{
    match rest {
        [object, property, high, low, octets @ ..] if octets.len() <= MOST_OCTETS => {
            Ok(Apdu::PropertyWrite {
                object: *object,
                property: *property,
                count: *high >> 4,
                start: start_of(*high, *low),
                octets: ApduOctets::from_slice(octets),
            })
        }
        _ => Err(TpduRefused::Length),
    }
}

/// Appends object, property, count and start.
pub fn encode_head(out: &mut ApduOctets, object: u8, property: u8, count: u8, start: u16)
    requires room { length out.old + 4 ≤ most_octets }
    requires count { count < 16 }
    requires start { start < 4096 }
    ensures { out.new ≡ out.old ++ property_head object property count start }
{
    out.push(object);
    out.push(property);
    push_word(out, (count as u16) << 12 | start);
}
