//! The services (ISO/IEC 14543-3-1, application layer): for each group of services one file, which decodes and encodes what follows
//! the code.

ghost use Rattle.std.specs.Prelude.{◌≡◌, ◌+◌, ◌<◌, ◌≤◌, ◌^◌, ◌++◌, length, IfOk, IfErr};
ghost use Rattle.knx_model.specs.Apdu.{ReadsApdu, IsApduInRange, apdu_code, rest_of, service};
ghost use Rattle.apdu_frames.specs.Refusing.{RefusesApdu};

mod device_descriptor;
mod group_value;
mod individual_address;
mod memory;
mod property_value;

use crate::apci;
use crate::words::push_word;
use knx_model::{Apdu, ApduOctets, TpduRefused};

/// The service that a code names, with the octets that follow the code.
pub fn decode(code: u16, rest: &[u8]) -> Result<Apdu, TpduRefused>
    requires { code < 2 ^ 10 }
    ensures read { IfOk result (λ apdu. ReadsApdu code rest.now apdu) }
    ensures refused { IfErr result (λ why. RefusesApdu code rest.now why) }
{
    match code >> 6 << 6 {
        apci::GROUP_VALUE_READ => group_value::decode_read(code, rest),
        apci::GROUP_VALUE_RESPONSE => group_value::decode_response(code, rest),
        apci::GROUP_VALUE_WRITE => group_value::decode_write(code, rest),
        apci::INDIVIDUAL_ADDRESS_WRITE => individual_address::decode_write(code, rest),
        apci::INDIVIDUAL_ADDRESS_READ => individual_address::decode_read(code, rest),
        apci::INDIVIDUAL_ADDRESS_RESPONSE => individual_address::decode_response(code, rest),
        apci::MEMORY_READ => memory::decode_read(code, rest),
        apci::MEMORY_RESPONSE => memory::decode_response(code, rest),
        apci::MEMORY_WRITE => memory::decode_write(code, rest),
        apci::DEVICE_DESCRIPTOR_READ => device_descriptor::decode_read(code, rest),
        apci::DEVICE_DESCRIPTOR_RESPONSE => device_descriptor::decode_response(code, rest),
        _ => match code {
            apci::PROPERTY_VALUE_READ => property_value::decode_read(code, rest),
            apci::PROPERTY_VALUE_RESPONSE => property_value::decode_response(code, rest),
            apci::PROPERTY_VALUE_WRITE => property_value::decode_write(code, rest),
            _ => Err(TpduRefused::Code),
        },
    }
}

/// The code of ten bits, with a short value, a count or a type in its low six bits.
pub fn code_of(apdu: &Apdu) -> u16
    requires { IsApduInRange apdu.now }
    ensures value { result ≡ apdu_code apdu.now }
    ensures fits { result < 2 ^ 10 }
{
    match apdu {
        Apdu::GroupRead => apci::GROUP_VALUE_READ,
        Apdu::GroupResponse(value) => apci::GROUP_VALUE_RESPONSE
            | group_value::short_of(value) as u16,
        Apdu::GroupWrite(value) => apci::GROUP_VALUE_WRITE | group_value::short_of(value) as u16,
        Apdu::AddressWrite(_) => apci::INDIVIDUAL_ADDRESS_WRITE,
        Apdu::AddressRead => apci::INDIVIDUAL_ADDRESS_READ,
        Apdu::AddressResponse => apci::INDIVIDUAL_ADDRESS_RESPONSE,
        Apdu::MemoryRead { count, .. } => apci::MEMORY_READ | *count as u16,
        Apdu::MemoryResponse { octets, .. } => apci::MEMORY_RESPONSE | octets.len() as u16,
        Apdu::MemoryWrite { octets, .. } => apci::MEMORY_WRITE | octets.len() as u16,
        Apdu::DescriptorRead(kind) => apci::DEVICE_DESCRIPTOR_READ | *kind as u16,
        Apdu::DescriptorResponse { kind, .. } => apci::DEVICE_DESCRIPTOR_RESPONSE | *kind as u16,
        Apdu::PropertyRead { .. } => apci::PROPERTY_VALUE_READ,
        Apdu::PropertyResponse { .. } => apci::PROPERTY_VALUE_RESPONSE,
        Apdu::PropertyWrite { .. } => apci::PROPERTY_VALUE_WRITE,
    }
}

/// Appends what follows the code.
pub fn encode_rest(out: &mut ApduOctets, apdu: &Apdu)
    requires range { IsApduInRange apdu.now }
    requires start { length out.old ≡ 2 }
    ensures { out.new ≡ out.old ++ rest_of apdu.now }
{
    match apdu {
        Apdu::GroupResponse(value) | Apdu::GroupWrite(value) => group_value::encode(out, value),
        Apdu::AddressWrite(address) => push_word(out, address.raw),
        Apdu::MemoryRead { address, .. } => push_word(out, *address),
        Apdu::MemoryResponse { address, octets } | Apdu::MemoryWrite { address, octets } => {
            memory::encode(out, *address, octets);
        }
        Apdu::DescriptorResponse {
            value: Some(value),
            ..
        } => push_word(out, *value),
        Apdu::PropertyRead {
            object,
            property,
            count,
            start,
        } => property_value::encode_head(out, *object, *property, *count, *start),
        Apdu::PropertyResponse {
            object,
            property,
            count,
            start,
            octets,
        }
        | Apdu::PropertyWrite {
            object,
            property,
            count,
            start,
            octets,
        } => {
            property_value::encode_head(out, *object, *property, *count, *start);
            out.extend(octets.as_slice());
        }
        Apdu::GroupRead
        | Apdu::AddressRead
        | Apdu::AddressResponse
        | Apdu::DescriptorRead(_)
        | Apdu::DescriptorResponse { value: None, .. } => {}
    }
}
