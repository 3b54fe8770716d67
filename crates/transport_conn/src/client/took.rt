//! How an open client's end answers a frame of its device.

ghost use Rattle.std.specs.Prelude.{◌≡◌};
ghost use Rattle.knx_model.specs.Connection.{HasNumber};
ghost use Rattle.knx_model.specs.ClientConnection.{up_took, asking_took};

use crate::frame::{ack, disconnect, nak};
use crate::session::{NumberIs, Session};
use knx_model::{ClientTook, TransportFrame};

/// The answer to a frame of the device while no service is outstanding.
pub fn up_took(session: &Session, frame: TransportFrame) -> ClientTook
    requires { HasNumber frame }
    ensures { result ≡ up_took session.now frame }
{
    match frame {
        TransportFrame::Disconnect => ClientTook::Closed { answer: None },
        TransportFrame::Ack(number) if session.was_acknowledged(number) => ClientTook::Dropped,
        TransportFrame::Ack(_) => ClientTook::Closed {
            answer: Some(disconnect()),
        },
        TransportFrame::Numbered { number, apdu } => match session.number_is(number) {
            NumberIs::Expected => ClientTook::Answer {
                apdu,
                ack: ack(number),
            },
            NumberIs::Before => ClientTook::Again { ack: ack(number) },
            NumberIs::Another => ClientTook::Nak(nak(number)),
        },
        TransportFrame::Connect | TransportFrame::Nak(_) | TransportFrame::Other => {
            ClientTook::Dropped
        }
    }
}

/// The answer to a frame of the device while a service is outstanding.
pub fn asking_took(session: &Session, frame: TransportFrame) -> ClientTook
    requires { HasNumber frame }
    ensures { result ≡ asking_took session.now frame }
{
    match frame {
        TransportFrame::Ack(number) if number == session.number => ClientTook::Acked,
        frame => up_took(session, frame),
    }
}
