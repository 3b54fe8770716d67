//! A_DeviceDescriptor_Read and A_DeviceDescriptor_Response (ISO/IEC 14543-3-1, application layer). The low six bits of the code
//! are the descriptor's type; a response of type 3F tells that the device has none of the asked type.

ghost use Rattle.std.specs.Prelude.{◌≡◌, IfOk, IfErr};
ghost use Rattle.knx_model.specs.Apdu.{ReadsApdu, service};
ghost use Rattle.apdu_frames.specs.Refusing.{RefusesApdu};

use crate::words::low_six;
use knx_model::{Apdu, NO_DESCRIPTOR, TpduRefused};

/// A_DeviceDescriptor_Read of a type.
pub fn decode_read(code: u16, rest: &[u8]) -> Result<Apdu, TpduRefused>
    requires { service code ≡ 0x300 }
    ensures read { IfOk result (λ apdu. ReadsApdu code rest.now apdu) }
    ensures refused { IfErr result (λ why. RefusesApdu code rest.now why) }
{
    if rest.is_empty() {
        Ok(Apdu::DescriptorRead(low_six(code)))
    } else {
        Err(TpduRefused::Length)
    }
}

/// A_DeviceDescriptor_Response of two octets, or of none where there is no such descriptor.
pub fn decode_response(code: u16, rest: &[u8]) -> Result<Apdu, TpduRefused>
    requires { service code ≡ 0x340 }
    ensures read { IfOk result (λ apdu. ReadsApdu code rest.now apdu) }
    ensures refused { IfErr result (λ why. RefusesApdu code rest.now why) }
{
    let kind = low_six(code);
    match rest {
        [] if kind == NO_DESCRIPTOR => Ok(Apdu::DescriptorResponse { kind, value: None }),
        [high, low] if kind != NO_DESCRIPTOR => Ok(Apdu::DescriptorResponse {
            kind,
            value: Some(u16::from_be_bytes([*high, *low])),
        }),
        _ => Err(TpduRefused::Length),
    }
}
