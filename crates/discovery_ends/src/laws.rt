//! The laws of the definitions, each a function without a body whose contract is the law.

ghost use Rattle.std.specs.Prelude.{◌≡◌, ◌↔◌, List, ℕ, Some};
ghost use Rattle.discovery.specs.declared.inquiry.Inquiry.{Inquiry};
ghost use Rattle.discovery.specs.Discovery.{Reads};
ghost use Rattle.discovery.specs.Finding.{request_of};
ghost use Rattle.discovery_ends.specs.Answering.{request_in};

/// Which request a datagram is, is the one that it reads as.
pub fn requests_are_read()
    ensures { (octets : List ℕ) (inquiry : Inquiry) → (request_in octets ≡ Some inquiry) ↔ Reads octets (request_of inquiry) }
{}
