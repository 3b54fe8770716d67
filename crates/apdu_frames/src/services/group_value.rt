//! A_GroupValue_Read, A_GroupValue_Response and A_GroupValue_Write (ISO/IEC 14543-3-1, application layer). A value stands in the
//! low six bits of the code, or is 1 to 14 octets.

ghost use Rattle.std.specs.Prelude.{◌≡◌, ◌≤◌, ◌^◌, ◌<◌, length, ◌+◌, ◌++◌, IfOk, IfErr};
ghost use Rattle.knx_model.specs.Apdu.{ReadsApdu, IsValue, service, short, long, most_value_octets};
ghost use Rattle.apdu_frames.specs.Refusing.{RefusesApdu};

use crate::words::low_six;
use knx_model::{Apdu, ApduOctets, LongValue, TpduRefused, Value};

/// A_GroupValue_Read has no octets.
pub fn decode_read(code: u16, rest: &[u8]) -> Result<Apdu, TpduRefused>
    requires { service code ≡ 0x000 }
    ensures read { IfOk result (λ apdu. ReadsApdu code rest.now apdu) }
    ensures refused { IfErr result (λ why. RefusesApdu code rest.now why) }
{
    if rest.is_empty() {
        Ok(Apdu::GroupRead)
    } else {
        Err(TpduRefused::Length)
    }
}

/// A_GroupValue_Response of a value.
pub fn decode_response(code: u16, rest: &[u8]) -> Result<Apdu, TpduRefused>
    requires { service code ≡ 0x040 }
    ensures read { IfOk result (λ apdu. ReadsApdu code rest.now apdu) }
    ensures refused { IfErr result (λ why. RefusesApdu code rest.now why) }
{
    Ok(Apdu::GroupResponse(value_of(code, rest)?))
}

/// A_GroupValue_Write of a value.
pub fn decode_write(code: u16, rest: &[u8]) -> Result<Apdu, TpduRefused>
    requires { service code ≡ 0x080 }
    ensures read { IfOk result (λ apdu. ReadsApdu code rest.now apdu) }
    ensures refused { IfErr result (λ why. RefusesApdu code rest.now why) }
{
    Ok(Apdu::GroupWrite(value_of(code, rest)?))
}

fn value_of(code: u16, rest: &[u8]) -> Result<Value, TpduRefused>
    ensures read { IfOk result (λ value. IsValue code rest.now value) }
    ensures long { IfErr result (λ why. (why ≡ TpduRefused.Length) × (most_value_octets < length rest.now)) }
{
    if rest.is_empty() {
        Ok(Value::Short(low_six(code)))
    } else if rest.len() <= LongValue::CAPACITY {
        Ok(Value::Long(LongValue::from_slice(rest)))
    } else {
        Err(TpduRefused::Length)
    }
}

/// The low six bits of the code: a short value, or none.
pub fn short_of(value: &Value) -> u8
    ensures { result ≡ short value.now }
{
    match value {
        Value::Short(value) => *value,
        Value::Long(_) => 0,
    }
}

/// Appends the octets of a long value. A short one stands in the code, and nothing is appended.
pub fn encode(out: &mut ApduOctets, value: &Value)
    requires start { length out.old ≡ 2 }
    ensures { out.new ≡ out.old ++ long value.now }
{
    if let Value::Long(octets) = value {
        out.extend(octets.as_slice());
    }
}
