//! The form of an object's value.

ghost use Rattle.std.specs.Prelude.{◌≡◌, ◌≤◌};
ghost use Rattle.knx_model.specs.Acts.{long_len, takes_form, zero_value};

use knx_model::{LongValue, Value};

/// The greatest size code whose values are short.
const LAST_SHORT: u8 = 5;

/// How many octets a long value of a size code has; 0 where its value is short.
fn long_len(size: u8) -> usize
    ensures value { result ≡ long_len size }
    ensures fits { result ≤ 14 }
{
    match size {
        6 | 7 => 1,
        8 => 2,
        9 => 3,
        10 => 4,
        11 => 6,
        12 => 8,
        13 => 10,
        14 => 14,
        _ => 0,
    }
}

/// Whether an object of a size code takes the value: the codes 0 to 5 a short one, the others up to 14 their number of octets.
pub fn takes_form(size: u8, value: &Value) -> bool
    ensures { result ≡ takes_form size value.now }
{
    match value {
        Value::Short(_) => size <= LAST_SHORT,
        Value::Long(octets) => {
            let len = octets.as_slice().len();
            len > 0 && len == long_len(size)
        }
    }
}

/// The value of an object to which nothing was written: short, or all octets of its size code, and 0.
pub fn zero_value(size: u8) -> Value
    ensures { result ≡ zero_value size }
{
    let len = long_len(size);
    if len == 0 {
        Value::Short(0)
    } else {
        Value::Long(LongValue::from_slice(&[0; LongValue::CAPACITY][..len]))
    }
}
