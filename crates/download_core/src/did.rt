//! What a step of a downloader did.

use knx_model::{ApduOctets, Sign};

/// What a step of a downloader did.
#[derive(Drop)]
pub enum Did {
    /// This TPDU is to be put to the device.
    Send(ApduOctets),
    /// Nothing: a confirmation, an acknowledgement or an answer is awaited.
    Wait,
    /// The plan went through.
    Done,
    /// Each attempt ended with its sign, the first one first.
    Failed {
        signs: [Sign; 3],
    },
    /// An answer differed from the expected one.
    Refused {
        /// The operation, from 0.
        op: u32,
        got: ApduOctets,
        /// Empty where no answer, or any of a service, was awaited.
        expected: ApduOctets,
    },
}
