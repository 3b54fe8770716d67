//! Group values.

ghost use Rattle.std.specs.Prelude.{◌≡◌};

use crate::frames::LongValue;

/// The value of a group telegram.
#[derive(Debug, Drop, PartialEq, Eq)]
pub enum Value {
    /// At most six bits, which stand beside the service.
    Short(u8),
    /// 1 to 14 octets.
    Long(LongValue),
}

impl Value {
    /// The same value again. It takes no memory.
    pub fn copied(&self) -> Value
        ensures { result ≡ self.now }
    {
        match self {
            Value::Short(bits) => Value::Short(*bits),
            Value::Long(octets) => Value::Long(octets.copied()),
        }
    }
}
