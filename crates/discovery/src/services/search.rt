//! SEARCH_REQUEST and SEARCH_RESPONSE (ISO 22510, Core): who is there.

ghost use Rattle.std.specs.Prelude.{◌≡◌, ◌≤◌, length, IfSome, IfNone};
ghost use Rattle.discovery.specs.declared.find_frame.FindFrame.TheVariants as frames;
ghost use Rattle.discovery.specs.Discovery.{HasFields, ReadsBody, IsBody, Written};

use crate::about::About;
use crate::blocks::{about_in, push_about};
use crate::find_frame::FindFrame;
use crate::header::framed;
use crate::service;
use crate::services::endpoint;
use knx_model::Datagram;

/// Reads a request: an endpoint.
pub fn read_request(body: &[u8]) -> Option<FindFrame>
    ensures some { IfSome result (λ frame. ReadsBody 0x0201 body.now frame) }
    ensures none { IfNone result (¬ IsBody 0x0201 body.now) }
{
    if endpoint::is_first(body) && body.len() == endpoint::LENGTH {
        Some(FindFrame::SearchRequest)
    } else {
        None
    }
}

/// Reads a response: an endpoint, and blocks.
#[tactic(auto, using(crate::proofs::Telling::no_search))]
pub fn read_response(body: &[u8]) -> Option<FindFrame>
    ensures some { IfSome result (λ frame. ReadsBody 0x0202 body.now frame) }
    ensures none { IfNone result (¬ IsBody 0x0202 body.now) }
{
    if !endpoint::is_first(body) {
        return None;
    }
    let about = about_in(endpoint::behind(body))?;
    Some(FindFrame::SearchResponse(about))
}

/// Writes a request.
pub fn write_request() -> Datagram
    ensures { result ≡ Written frames.SearchRequest }
{
    framed(service::SEARCH_REQUEST, &endpoint::written())
}

/// Writes a response.
pub fn write_response(about: &About) -> Datagram
    requires { length about.now.families ≤ 64 }
    ensures written { result ≡ Written (frames.SearchResponse about.now) }
    ensures fields { HasFields about.now }
{
    let mut body = endpoint::written();
    push_about(&mut body, about);
    framed(service::SEARCH_RESPONSE, &body)
}
