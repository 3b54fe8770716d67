//! The services (ISO 22510, Core): for each pair of request and response one file, which reads and writes both.

ghost use Rattle.std.specs.Prelude.{◌≡◌, IfSome, IfNone};
ghost use Rattle.discovery.specs.Discovery.{ReadsBody, IsBody, IsFrame, FitsADatagram, Written};
ghost use Rattle.discovery.specs.Services.{identifier_of};

mod description;
mod endpoint;
mod search;

use crate::find_frame::FindFrame;
use crate::service::Service;
pub use description::write_response as write_description;
use knx_model::Datagram;
pub use search::write_response as write_search;

/// The frame of a service with this body; None exactly where it is no body of the service.
pub fn read(service: Service, body: &[u8]) -> Option<FindFrame>
    ensures some { IfSome result (λ frame. ReadsBody (identifier_of service) body.now frame) }
    ensures none { IfNone result (¬ IsBody (identifier_of service) body.now) }
{
    match service {
        Service::SearchRequest => search::read_request(body),
        Service::SearchResponse => search::read_response(body),
        Service::DescriptionRequest => description::read_request(body),
        Service::DescriptionResponse => description::read_response(body),
    }
}

/// The octets of a frame.
pub fn write(frame: &FindFrame) -> Datagram
    requires { FitsADatagram frame.now }
    ensures written { result ≡ Written frame.now }
    ensures frame { IsFrame frame.now }
{
    match frame {
        FindFrame::SearchRequest => search::write_request(),
        FindFrame::SearchResponse(about) => search::write_response(about),
        FindFrame::DescriptionRequest => description::write_request(),
        FindFrame::DescriptionResponse(about) => description::write_response(about),
    }
}
