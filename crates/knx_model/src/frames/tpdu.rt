//! The protocol data units of the transport and application layers (ISO/IEC 14543-3-2 and 3-1).

ghost use Rattle.std.specs.Prelude.{◌≡◌};
ghost use Rattle.knx_model.specs.Apdu.{refusal_number, refusal_word};

use crate::address::IndAddr;
use crate::frames::{ApduOctets, Value};

/// How many octets of memory one service carries at most.
pub const MOST_MEMORY_OCTETS: usize = 60;

/// A service of the application layer. Memory addresses are those of the device; counts of memory are 1 to 60 octets, of a response
/// 0 to 60; a property's count has 4 bits, its start 12, and its value at most 10 octets.
#[derive(Debug, Drop, PartialEq, Eq)]
pub enum Apdu {
    /// A_GroupValue_Read.
    GroupRead,
    /// A_GroupValue_Response.
    GroupResponse(Value),
    /// A_GroupValue_Write.
    GroupWrite(Value),
    /// A_IndividualAddress_Write.
    AddressWrite(IndAddr),
    /// A_IndividualAddress_Read.
    AddressRead,
    /// A_IndividualAddress_Response, whose address is its sender's.
    AddressResponse,
    /// A_Memory_Read.
    MemoryRead {
        count: u8,
        address: u16,
    },
    /// A_Memory_Response; without octets where the address can't be read.
    MemoryResponse {
        address: u16,
        octets: ApduOctets,
    },
    /// A_Memory_Write.
    MemoryWrite {
        address: u16,
        octets: ApduOctets,
    },
    /// A_DeviceDescriptor_Read of a type, 0 to 63.
    DescriptorRead(u8),
    /// A_DeviceDescriptor_Response; without a value exactly where the type is 63.
    DescriptorResponse {
        kind: u8,
        value: Option<u16>,
    },
    /// A_PropertyValue_Read.
    PropertyRead {
        object: u8,
        property: u8,
        count: u8,
        start: u16,
    },
    /// A_PropertyValue_Response; of count 0 and without octets where the property can't be read or written so.
    PropertyResponse {
        object: u8,
        property: u8,
        count: u8,
        start: u16,
        octets: ApduOctets,
    },
    /// A_PropertyValue_Write.
    PropertyWrite {
        object: u8,
        property: u8,
        count: u8,
        start: u16,
        octets: ApduOctets,
    },
}

/// A frame of the transport layer. Sequence numbers are 0 to 15.
#[derive(Debug, Drop, PartialEq, Eq)]
pub enum Tpdu {
    Unnumbered(Apdu),
    Numbered { number: u8, apdu: Apdu },
    Connect,
    Disconnect,
    Ack(u8),
    Nak(u8),
}

/// Why octets are no frame.
#[derive(Clone, Copy, Debug, PartialEq, Eq)]
pub enum TpduRefused {
    /// 1: no octet.
    Empty,
    /// 2: no form of a first octet, or none of the services.
    Code,
    /// 3: the number of octets isn't one of its form or service, counted octets aside.
    Length,
    /// 4: the count of a memory service is out of its range, or isn't the number of octets that follow.
    Count,
}

impl TpduRefused {
    /// Its number, from 1.
    pub fn number(self) -> u8
        ensures { result ≡ refusal_number self }
    {
        match self {
            TpduRefused::Empty => 1,
            TpduRefused::Code => 2,
            TpduRefused::Length => 3,
            TpduRefused::Count => 4,
        }
    }

    /// Its word, as it is printed.
    pub fn word(self) -> &'static str
        ensures { result.now ≡ refusal_word self }
    {
        match self {
            TpduRefused::Empty => "Empty",
            TpduRefused::Code => "Code",
            TpduRefused::Length => "Length",
            TpduRefused::Count => "Count",
        }
    }
}
