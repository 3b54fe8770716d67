//! Whether an answer is the expected one.

ghost use Rattle.std.specs.Prelude.{◌≡◌};
ghost use Rattle.download_core.specs.Attempt.{suits_expect, wanted_of};

use download_plan::suits;
use knx_model::{ApduOctets, Expect};

/// Whether these octets are the answer that an operation expects.
pub fn is_wanted(apdu: &[u8], expect: &Expect, got: &ApduOctets) -> bool
    ensures { result ≡ suits_expect apdu.now expect.now got.now }
{
    suits(apdu, expect, &Some(got.copied()))
}

/// The octets that an operation expects; empty where it expects none, or any of a service.
pub fn wanted(expect: &Expect) -> ApduOctets
    ensures { result ≡ wanted_of expect.now }
{
    match expect {
        Expect::Is(wanted) => wanted.copied(),
        Expect::AckOnly | Expect::Note => ApduOctets::new(),
    }
}
