//! Where datagrams arrive.

/// Which datagrams of a sender arrive.
#[derive(Clone, Copy, Drop)]
pub enum Reach {
    /// All of them: at the gateway, or at clients that are each at their own endpoint.
    Every,
    /// Those to this endpoint alone, since the client has left its others.
    To(u64),
}
