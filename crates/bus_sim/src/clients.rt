//! Whose a run is.

/// Whose a run is: what its clients may do, and which of the gateway's datagrams they get.
#[derive(Clone, Copy, Drop)]
pub enum Clients {
    /// Of one client, which drives the line as a link and gets what comes to its present endpoint.
    One,
    /// Of any clients, which come at a port, each at an endpoint of its own.
    Any,
}
