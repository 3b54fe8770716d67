//! The frames of discovery (ISO 22510, Core).

use crate::about::About;

/// A frame of who looks for gateways, or of a gateway.
#[derive(Drop)]
pub enum FindFrame {
    /// Asks who is there.
    SearchRequest,
    /// A gateway is, and tells of itself.
    SearchResponse(About),
    /// Asks one gateway what it is.
    DescriptionRequest,
    /// It tells of itself.
    DescriptionResponse(About),
}
