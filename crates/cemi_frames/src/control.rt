//! The two control octets of a frame (KNX standard 3/6/3, common EMI). The first has bit 7 for a standard frame, the priority in
//! bits 3 and 2, and bit 0 for the error that a con tells of. The second has bit 7 for a group destination, the hop count in
//! bits 6 to 4, and in its low four bits the format of an extended frame.

ghost use Rattle.std.specs.Prelude.{◌≡◌, ◌/◌, ◌%◌, ◌==◌, ◌&&◌, IsTrue, ◌↔◌};
ghost use Rattle.knx_model.specs.Cemi.{code_octet, IsStandard, HasNoFormat, is_extended, first_written, second_written};

use knx_model::{Ldata, LdataCode};

/// The most octets of a standard frame's TPDU.
pub const MOST_STANDARD_OCTETS: usize = 16;

/// Standard frame, not repeated, broadcast, low priority, no acknowledgement asked for, no error.
const LOW_PRIORITY: u8 = 0xBC;
/// The same with an error.
const LOW_PRIORITY_ERROR: u8 = 0xBD;
/// The same two of an extended frame.
const EXTENDED: u8 = 0x3C;

const EXTENDED_ERROR: u8 = 0x3D;
/// A group destination and hop count 6.
const TO_GROUP: u8 = 0xE0;
/// An individual destination and hop count 6.
const TO_DEVICE: u8 = 0x60;

/// Whether the first control octet is that of a standard frame.
pub fn is_standard(first: u8) -> bool
    ensures { IsTrue result ↔ IsStandard first }
{
    first & 0x80 != 0
}

/// Whether the format in the second control octet is that of L_Data.
pub fn has_no_format(second: u8) -> bool
    ensures { IsTrue result ↔ HasNoFormat second }
{
    second & 0x0F == 0
}

/// Whether a frame of this code and first control octet tells of an error.
pub fn has_error(code: LdataCode, first: u8) -> bool
    ensures { result ≡ ((code_octet code == 0x2E) && (first % 2 == 1)) }
{
    match code {
        LdataCode::Con => first & 0x01 == 1,
        _ => false,
    }
}

/// The priority in the first control octet.
pub fn priority_of(first: u8) -> u8
    ensures { result ≡ first / 4 % 4 }
{
    first >> 2 & 0x03
}

/// Whether the second control octet tells of a group destination.
pub fn is_to_group(second: u8) -> bool
    ensures { result ≡ (second / 128 == 1) }
{
    second >> 7 == 1
}

/// The hop count in the second control octet.
pub fn hops_of(second: u8) -> u8
    ensures { result ≡ second / 16 % 8 }
{
    second >> 4 & 0x07
}

/// The first control octet that is written.
pub fn first_of(frame: &Ldata) -> u8
    ensures { result ≡ first_written (is_extended frame.now) frame.now.error }
{
    match (frame.tpdu.len() > MOST_STANDARD_OCTETS, frame.error) {
        (true, true) => EXTENDED_ERROR,
        (true, false) => EXTENDED,
        (false, true) => LOW_PRIORITY_ERROR,
        (false, false) => LOW_PRIORITY,
    }
}

/// The second control octet that is written.
pub fn second_of(group: bool) -> u8
    ensures { result ≡ second_written group }
{
    if group { TO_GROUP } else { TO_DEVICE }
}
