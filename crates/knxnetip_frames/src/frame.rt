//! Frames of KNXnet/IP (ISO 22510, Core): the header, and the body of its service.

ghost use Rattle.std.specs.Prelude.{◌≡◌, IfOk, IfErr, Ok};
ghost use Rattle.knx_model.specs.declared.frames.ip.IpFrame.{IpFrame as Frame};
ghost use Rattle.knx_model.specs.KnxNetIp.{Reads, Written, IsInRange, IsLeastBroken};

use crate::service::Service;
use crate::{header, services};
use knx_model::{Datagram, IpFrame, IpRefused};

/// The frame that the octets are (ISO 22510), or the least rule that they break.
#[tactic(auto, using(crate::proofs::Once::only_frame))]
pub fn decode(octets: &[u8]) -> Result<IpFrame, IpRefused>
    ensures read { IfOk result (λ frame. Reads octets.now frame) }
    ensures only { (frame : Frame) → Reads octets.now frame → result ≡ Ok frame }
    ensures refused { IfErr result (λ why. IsLeastBroken why octets.now) }
{
    // That no other frame is read follows from what `frame_of` answers, whichever return it took: so it is shown here, once.
    frame_of(octets)
}

fn frame_of(octets: &[u8]) -> Result<IpFrame, IpRefused>
    ensures read { IfOk result (λ frame. Reads octets.now frame) }
    ensures refused { IfErr result (λ why. IsLeastBroken why octets.now) }
{
    if octets.len() < 6 || octets[0] != header::LENGTH || octets[1] != header::VERSION {
        return Err(IpRefused::Header);
    }
    let identifier = u16::from_be_bytes([octets[2], octets[3]]);
    let service = Service::of(identifier).ok_or(IpRefused::Service)?;
    if u16::from_be_bytes([octets[4], octets[5]]) as usize != octets.len() {
        return Err(IpRefused::Length);
    }
    services::read(service, &octets[6..]).ok_or(IpRefused::Body)
}

/// The octets of the frame (ISO 22510): a cEMI frame has 1 to 290 octets, and a connect response has a tunnel's address exactly where its
/// status is 0, and otherwise channel 0.
#[tactic(auto, using(crate::proofs::Written::written_reads))]
pub fn encode(frame: &IpFrame) -> Datagram
    requires { IsInRange frame.now }
    ensures written { result ≡ Written frame.now }
    ensures reads { Reads result frame.now }
{
    services::write(frame)
}
