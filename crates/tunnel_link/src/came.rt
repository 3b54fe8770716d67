//! What a poll brought, and what became of the channel.

ghost use Rattle.std.specs.Prelude.{◌≡◌};
ghost use Rattle.tunnel_link.specs.Kept.{only, with_datagram};

use knx_model::{Datagram, IndAddr, Ldata};

/// What became of the channel.
#[derive(Clone, Copy, Drop)]
pub enum Loss {
    /// It wasn't lost.
    Stays,
    /// It was lost, and the gateway isn't told: it ended the channel itself.
    Ended,
    /// It was lost, and the gateway was told by a disconnect request.
    Told,
}

/// What a poll brought.
#[derive(Drop)]
pub struct Came {
    pub what: What,
    /// What became of the channel in it, after what came.
    pub loss: Loss,
    /// Something was sent for it: an acknowledgement, the answer to a disconnect request, or a disconnect request.
    pub sent: bool,
}

/// What a poll brought, and the datagram that is to be sent at once.
#[derive(Drop)]
pub struct Answer {
    pub what: What,
    pub loss: Loss,
    pub sends: Option<Datagram>,
}

/// What was got in a poll.
#[derive(Drop)]
pub enum What {
    /// The wait ended without a datagram.
    Quiet,
    /// A datagram that acts on nothing.
    Dropped,
    /// A datagram that is for the tunnel alone, a confirmation of another request than the one put last, or an indication to another device.
    Tunnel,
    /// The response that opened a channel, with the individual address of the tunnel.
    Up { tunnel: IndAddr },
    /// The gateway's next request, with this frame of the link layer.
    Frame(Ldata),
}

impl Answer {
    /// This was got, and no more is to be done.
    pub fn only(what: What) -> Answer
        ensures { result ≡ only what }
    {
        Answer {
            what,
            loss: Loss::Stays,
            sends: None,
        }
    }

    /// This was got, and a datagram is to be sent.
    pub fn with(what: What, datagram: Datagram) -> Answer
        ensures { result ≡ with_datagram what datagram }
    {
        Answer {
            what,
            loss: Loss::Stays,
            sends: Some(datagram),
        }
    }
}
