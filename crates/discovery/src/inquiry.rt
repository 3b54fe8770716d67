//! What is asked (ISO 22510, Core): who is there, or what one gateway is.

ghost use Rattle.std.specs.Prelude.{◌≡◌};
ghost use Rattle.discovery.specs.Finding.{request_of};

use crate::find_frame::FindFrame;

/// What is asked: a search awaits SEARCH_RESPONSE, a description DESCRIPTION_RESPONSE.
#[derive(Clone, Copy, Drop)]
pub enum Inquiry {
    /// Who is there?
    Search,
    /// What is the gateway that is asked?
    Description,
}

impl Inquiry {
    /// The request that asks it.
    pub fn request(self) -> FindFrame
        ensures { result ≡ request_of self }
    {
        match self {
            Inquiry::Search => FindFrame::SearchRequest,
            Inquiry::Description => FindFrame::DescriptionRequest,
        }
    }
}
