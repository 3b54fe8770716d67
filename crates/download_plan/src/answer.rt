//! Whether an answer is the wanted one.

ghost use Rattle.std.specs.Prelude.{◌≡◌, IsTrue, ◌↔◌};
ghost use Rattle.knx_model.specs.Plans.{is_response, is_fitting, Suits};

use apdu_frames::service_in;
use knx_model::{Apdu, ApduOctets, Expect};

/// Whether a service is the response that fits another.
fn is_response(asked: &Apdu, got: &Apdu) -> bool
    ensures { result ≡ is_response asked.now got.now }
{
    matches!(
        (asked, got),
        (Apdu::DescriptorRead(_), Apdu::DescriptorResponse { .. })
            | (Apdu::MemoryRead { .. }, Apdu::MemoryResponse { .. })
            | (Apdu::PropertyRead { .. }, Apdu::PropertyResponse { .. })
            | (Apdu::PropertyWrite { .. }, Apdu::PropertyResponse { .. })
    )
}

fn is_fitting(asked: &[u8], got: &[u8]) -> bool
    ensures { result ≡ is_fitting asked.now got.now }
{
    match (service_in(asked), service_in(got)) {
        (Some(asked), Some(got)) => is_response(&asked, &got),
        _ => false,
    }
}

/// Whether the answer to a service is the one that an operation expects.
pub fn suits(apdu: &[u8], expect: &Expect, answer: &Option<ApduOctets>) -> bool
    ensures { IsTrue result ↔ Suits apdu.now expect.now answer.now }
{
    match (expect, answer) {
        (Expect::AckOnly, None) => true,
        (Expect::Is(expected), Some(got)) => got.as_slice() == expected.as_slice(),
        (Expect::Note, Some(got)) => is_fitting(apdu, got.as_slice()),
        _ => false,
    }
}
