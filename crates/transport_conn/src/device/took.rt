//! What an open end of a device answers its partner.

ghost use Rattle.std.specs.Prelude.{◌≡◌};
ghost use Rattle.knx_model.specs.Connection.{HasNumber};
ghost use Rattle.knx_model.specs.DeviceConnection.{idle_took, answering_took, closed_took, other_sender_took};

use crate::frame::{ack, disconnect, nak};
use crate::session::{NumberIs, Session};
use knx_model::{DeviceTook, TransportFrame};

/// The answer to a frame of the partner while no answer is outstanding.
pub fn idle_took(session: &Session, frame: TransportFrame) -> DeviceTook
    requires { HasNumber frame }
    ensures { result ≡ idle_took session.now frame }
{
    match frame {
        TransportFrame::Connect => DeviceTook::Connected,
        TransportFrame::Disconnect => DeviceTook::Closed { answer: None },
        TransportFrame::Ack(number) if session.was_acknowledged(number) => DeviceTook::Dropped,
        TransportFrame::Ack(_) => DeviceTook::Closed {
            answer: Some(disconnect()),
        },
        TransportFrame::Numbered { number, apdu } => match session.number_is(number) {
            NumberIs::Expected => DeviceTook::Apdu {
                apdu,
                ack: ack(number),
            },
            NumberIs::Before => DeviceTook::Again { ack: ack(number) },
            NumberIs::Another => DeviceTook::Nak(nak(number)),
        },
        TransportFrame::Nak(_) | TransportFrame::Other => DeviceTook::Dropped,
    }
}

/// The answer to a frame of the partner while an answer is outstanding.
pub fn answering_took(session: &Session, frame: TransportFrame) -> DeviceTook
    requires { HasNumber frame }
    ensures { result ≡ answering_took session.now frame }
{
    match frame {
        TransportFrame::Ack(number) if number == session.number => DeviceTook::Acked,
        TransportFrame::Numbered { number, .. } if number == session.expected => {
            DeviceTook::Dropped
        }
        frame => idle_took(session, frame),
    }
}

/// The answer of a closed end.
pub fn closed_took(frame: TransportFrame) -> DeviceTook
    ensures { result ≡ closed_took frame }
{
    match frame {
        TransportFrame::Connect => DeviceTook::Connected,
        TransportFrame::Numbered { .. } => DeviceTook::Closed {
            answer: Some(disconnect()),
        },
        _ => DeviceTook::Dropped,
    }
}

/// The answer to another sender than the partner.
pub fn other_sender_took(frame: TransportFrame) -> DeviceTook
    ensures { result ≡ other_sender_took frame }
{
    match frame {
        TransportFrame::Connect => DeviceTook::Closed {
            answer: Some(disconnect()),
        },
        _ => DeviceTook::Dropped,
    }
}
