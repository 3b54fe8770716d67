//! The service type identifiers of discovery (ISO 22510, Core).

ghost use Rattle.std.specs.Prelude.{◌≡◌, IfSome, IfNone};
ghost use Rattle.discovery.specs.Discovery.{IsService};
ghost use Rattle.discovery.specs.Services.{identifier_of};

/// SEARCH_REQUEST asks who is there.
pub const SEARCH_REQUEST: u16 = 0x0201;
/// SEARCH_RESPONSE tells of a gateway.
pub const SEARCH_RESPONSE: u16 = 0x0202;
/// DESCRIPTION_REQUEST asks one gateway what it is.
pub const DESCRIPTION_REQUEST: u16 = 0x0203;
/// DESCRIPTION_RESPONSE tells of it.
pub const DESCRIPTION_RESPONSE: u16 = 0x0204;

/// A service of discovery.
#[derive(Clone, Copy)]
pub enum Service {
    SearchRequest,
    SearchResponse,
    DescriptionRequest,
    DescriptionResponse,
}

impl Service {
    /// The service of an identifier; None exactly where it is none of these.
    pub fn of(identifier: u16) -> Option<Service>
        ensures some { IfSome result (λ service. identifier_of service ≡ identifier) }
        ensures none { IfNone result (¬ IsService identifier) }
    {
        match identifier {
            SEARCH_REQUEST => Some(Service::SearchRequest),
            SEARCH_RESPONSE => Some(Service::SearchResponse),
            DESCRIPTION_REQUEST => Some(Service::DescriptionRequest),
            DESCRIPTION_RESPONSE => Some(Service::DescriptionResponse),
            _ => None,
        }
    }
}
