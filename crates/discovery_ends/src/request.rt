//! The requests in datagrams, and their answers.

ghost use Rattle.std.specs.Prelude.{◌≡◌, ◌≤◌, length};
ghost use Rattle.discovery_ends.specs.Answering.{answer_of, request_in};

use crate::laws::requests_are_read;
use discovery::{About, Datagram, FindFrame, Inquiry, decode, encode_response};

/// Which request a datagram is; None where it is none.
pub fn request_in(octets: &[u8]) -> Option<Inquiry>
    ensures { result ≡ request_in octets.now }
{
    requests_are_read();
    match decode(octets) {
        Ok(frame) => match frame {
            FindFrame::SearchRequest => Some(Inquiry::Search),
            FindFrame::DescriptionRequest => Some(Inquiry::Description),
            FindFrame::SearchResponse(_) | FindFrame::DescriptionResponse(_) => None,
        },
        Err(_) => None,
    }
}

/// The answer, which tells of the gateway.
pub fn answer_of(about: &About, inquiry: Inquiry) -> Datagram
    requires { length about.now.families ≤ 64 }
    ensures { result ≡ answer_of about.now inquiry }
{
    encode_response(inquiry, about)
}
