//! A_Memory_Read, A_Memory_Response and A_Memory_Write (ISO/IEC 14543-3-1, application layer). The low six bits of the code
//! count the octets, and an address of two octets goes first.

ghost use Rattle.std.specs.Prelude.{◌≡◌, ◌+◌, ◌≤◌, ◌++◌, length, IfOk, IfErr};
ghost use Rattle.knx_model.specs.Apdu.{ReadsApdu, service, most_octets, word as written};
ghost use Rattle.apdu_frames.specs.Refusing.{RefusesApdu};

use crate::words::{low_six, push_word};
use knx_model::{Apdu, ApduOctets, MOST_MEMORY_OCTETS, TpduRefused};

/// A_Memory_Read of 1 to 60 octets.
pub fn decode_read(code: u16, rest: &[u8]) -> Result<Apdu, TpduRefused>
    requires { service code ≡ 0x200 }
    ensures read { IfOk result (λ apdu. ReadsApdu code rest.now apdu) }
    ensures refused { IfErr result (λ why. RefusesApdu code rest.now why) }
{
    let [high, low] = rest else {
        return Err(TpduRefused::Length);
    };
    let count = low_six(code);
    if count < 1 || count as usize > MOST_MEMORY_OCTETS {
        return Err(TpduRefused::Count);
    }
    Ok(Apdu::MemoryRead {
        count,
        address: u16::from_be_bytes([*high, *low]),
    })
}

/// A_Memory_Response of at most 60 octets; of none where the address can't be read.
pub fn decode_response(code: u16, rest: &[u8]) -> Result<Apdu, TpduRefused>
    requires { service code ≡ 0x240 }
    ensures read { IfOk result (λ apdu. ReadsApdu code rest.now apdu) }
    ensures refused { IfErr result (λ why. RefusesApdu code rest.now why) }
{
    let [high, low, octets @ ..] = rest else {
        return Err(TpduRefused::Length);
    };
    let count = low_six(code);
    if count as usize > MOST_MEMORY_OCTETS || octets.len() != count as usize {
        return Err(TpduRefused::Count);
    }
    Ok(Apdu::MemoryResponse {
        address: u16::from_be_bytes([*high, *low]),
        octets: ApduOctets::from_slice(octets),
    })
}

/// A_Memory_Write of 1 to 60 octets.
pub fn decode_write(code: u16, rest: &[u8]) -> Result<Apdu, TpduRefused>
    requires { service code ≡ 0x280 }
    ensures read { IfOk result (λ apdu. ReadsApdu code rest.now apdu) }
    ensures refused { IfErr result (λ why. RefusesApdu code rest.now why) }
{
    let [high, low, octets @ ..] = rest else {
        return Err(TpduRefused::Length);
    };
    let count = low_six(code);
    if count < 1 || count as usize > MOST_MEMORY_OCTETS || octets.len() != count as usize {
        return Err(TpduRefused::Count);
    }
    Ok(Apdu::MemoryWrite {
        address: u16::from_be_bytes([*high, *low]),
        octets: ApduOctets::from_slice(octets),
    })
}

/// Appends address and octets.
pub fn encode(out: &mut ApduOctets, address: u16, octets: &ApduOctets)
    requires { length out.old + 2 + length octets.now ≤ most_octets }
    ensures { out.new ≡ out.old ++ (written address ++ octets.now) }
{
    push_word(out, address);
    out.extend(octets.as_slice());
}
