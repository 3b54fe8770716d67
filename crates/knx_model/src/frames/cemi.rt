//! Frames of the link layer as a tunnel carries them (KNX standard 3/6/3, common EMI).

ghost use Rattle.std.specs.Prelude.{◌≡◌};
ghost use Rattle.knx_model.specs.Cemi.{refusal_number, refusal_word};

use crate::frames::ApduOctets;

/// Which L_Data service a frame belongs to.
#[derive(Clone, Copy, Debug, Drop, PartialEq, Eq)]
pub enum LdataCode {
    /// L_Data.req asks for a frame on the bus.
    Req,
    /// L_Data.con confirms that frame.
    Con,
    /// L_Data.ind tells of a frame of another device.
    Ind,
}

/// A frame of L_Data, standard or extended.
#[derive(Debug, Drop, PartialEq, Eq)]
pub struct Ldata {
    pub code: LdataCode,
    /// Whether a con tells that the frame met an error.
    pub error: bool,
    /// Whether the destination is a group address.
    pub group: bool,
    /// 0 to 3: system, normal, urgent, low.
    pub priority: u8,
    /// The hop count, 0 to 7.
    pub hops: u8,
    /// An individual address.
    pub source: u16,
    /// A group address or an individual address.
    pub destination: u16,
    /// 1 to 64 octets; above 16 the frame is an extended one.
    pub tpdu: ApduOctets,
}

impl Ldata {
    /// The same frame again. It takes no memory.
    pub fn copied(&self) -> Ldata
        ensures { result ≡ self.now }
    {
        Ldata {
            code: self.code,
            error: self.error,
            group: self.group,
            priority: self.priority,
            hops: self.hops,
            source: self.source,
            destination: self.destination,
            tpdu: self.tpdu.copied(),
        }
    }
}

/// Why octets are no frame of L_Data.
#[derive(Clone, Copy, Debug, PartialEq, Eq)]
pub enum CemiRefused {
    /// 1: too short for what goes before the TPDU.
    Short,
    /// 2: the message code isn't one of L_Data.
    Code,
    /// 3: an extended frame of another format.
    Extended,
    /// 4: the length isn't that of the TPDU, or is above 15 in a standard frame.
    Length,
    /// 5: the length of an extended frame is above 63.
    Long,
}

impl CemiRefused {
    /// Its number, from 1.
    pub fn number(self) -> u8
        ensures { result ≡ refusal_number self }
    {
        match self {
            CemiRefused::Short => 1,
            CemiRefused::Code => 2,
            CemiRefused::Extended => 3,
            CemiRefused::Length => 4,
            CemiRefused::Long => 5,
        }
    }

    /// Its word, as it is printed.
    pub fn word(self) -> &'static str
        ensures { result.now ≡ refusal_word self }
    {
        match self {
            CemiRefused::Short => "Short",
            CemiRefused::Code => "Code",
            CemiRefused::Extended => "Extended",
            CemiRefused::Length => "Length",
            CemiRefused::Long => "Long",
        }
    }
}
