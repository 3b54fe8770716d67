//! Frames of discovery (ISO 22510, Core): the header, and the body of its service.

ghost use Rattle.std.specs.Prelude.{◌≡◌, ◌≤◌, IfOk, IfErr, Ok, length};
ghost use Rattle.discovery.specs.declared.find_frame.FindFrame.{FindFrame as Frame};
ghost use Rattle.discovery.specs.Discovery.{Reads, Written, FitsADatagram, IsLeastBroken};
ghost use Rattle.discovery.specs.Finding.{response_of};

use crate::about::About;
use crate::find_frame::FindFrame;
use crate::inquiry::Inquiry;
use crate::service::Service;
use crate::{header, services};
use knx_model::{Datagram, IpRefused};

/// The frame that the octets are (ISO 22510), or the least rule that they break. It takes no memory.
#[tactic(auto, using(crate::proofs::Once::only_frame))]
pub fn decode(octets: &[u8]) -> Result<FindFrame, IpRefused>
    ensures read { IfOk result (λ frame. Reads octets.now frame) }
    ensures only { (frame : Frame) → Reads octets.now frame → result ≡ Ok frame }
    ensures refused { IfErr result (λ why. IsLeastBroken why octets.now) }
{
    // That no other frame is read follows from what `frame_of` answers, whichever return it took: so it is shown here, once.
    frame_of(octets)
}

fn frame_of(octets: &[u8]) -> Result<FindFrame, IpRefused>
    ensures read { IfOk result (λ frame. Reads octets.now frame) }
    ensures refused { IfErr result (λ why. IsLeastBroken why octets.now) }
{
    if octets.len() < 6 || octets[0] != header::LENGTH || octets[1] != header::VERSION {
        return Err(IpRefused::Header);
    }
    let identifier = u16::from_be_bytes([octets[2], octets[3]]);
    let service = Service::of(identifier).ok_or(IpRefused::Service)?;
    if u16::from_be_bytes([octets[4], octets[5]]) as usize != octets.len() {
        return Err(IpRefused::Length);
    }
    services::read(service, &octets[6..]).ok_or(IpRefused::Body)
}

/// The octets of the frame (ISO 22510), for at most 64 service families. It takes no memory.
#[tactic(auto, using(crate::proofs::Written::written_reads))]
pub fn encode(frame: &FindFrame) -> Datagram
    requires { FitsADatagram frame.now }
    ensures written { result ≡ Written frame.now }
    ensures reads { Reads result frame.now }
{
    services::write(frame)
}

/// The octets of the response to what was asked (ISO 22510), for at most 64 service families. It takes no memory.
pub fn encode_response(inquiry: Inquiry, about: &About) -> Datagram
    requires { length about.now.families ≤ 64 }
    ensures { result ≡ Written (response_of inquiry about.now) }
{
    match inquiry {
        Inquiry::Search => services::write_search(about),
        Inquiry::Description => services::write_description(about),
    }
}
