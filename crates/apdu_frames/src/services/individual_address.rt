//! A_IndividualAddress_Write, A_IndividualAddress_Read and A_IndividualAddress_Response (ISO/IEC 14543-3-1, application layer).

ghost use Rattle.std.specs.Prelude.{◌≡◌, IfOk, IfErr};
ghost use Rattle.knx_model.specs.Apdu.{ReadsApdu, service};
ghost use Rattle.apdu_frames.specs.Refusing.{RefusesApdu};

use knx_model::{Apdu, IndAddr, TpduRefused};

/// A_IndividualAddress_Write of an address of two octets.
pub fn decode_write(code: u16, rest: &[u8]) -> Result<Apdu, TpduRefused>
    requires { service code ≡ 0x0C0 }
    ensures read { IfOk result (λ apdu. ReadsApdu code rest.now apdu) }
    ensures refused { IfErr result (λ why. RefusesApdu code rest.now why) }
{
    match rest {
        [high, low] => Ok(Apdu::AddressWrite(IndAddr {
            raw: u16::from_be_bytes([*high, *low]),
        })),
        _ => Err(TpduRefused::Length),
    }
}

/// A_IndividualAddress_Read has no octets.
pub fn decode_read(code: u16, rest: &[u8]) -> Result<Apdu, TpduRefused>
    requires { service code ≡ 0x100 }
    ensures read { IfOk result (λ apdu. ReadsApdu code rest.now apdu) }
    ensures refused { IfErr result (λ why. RefusesApdu code rest.now why) }
{
    if rest.is_empty() {
        Ok(Apdu::AddressRead)
    } else {
        Err(TpduRefused::Length)
    }
}

/// A_IndividualAddress_Response has no octets: the address is that of its sender.
pub fn decode_response(code: u16, rest: &[u8]) -> Result<Apdu, TpduRefused>
    requires { service code ≡ 0x140 }
    ensures read { IfOk result (λ apdu. ReadsApdu code rest.now apdu) }
    ensures refused { IfErr result (λ why. RefusesApdu code rest.now why) }
{
    if rest.is_empty() {
        Ok(Apdu::AddressResponse)
    } else {
        Err(TpduRefused::Length)
    }
}
