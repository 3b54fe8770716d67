//! The text of a datagram.

ghost use Rattle.std.specs.Prelude.{◌≡◌, ◌++◌, IfOk, OnOk};
ghost use Rattle.frame_text.specs.FrameText.{GrowsBy, IsTpduText, IsTextOfLdata, IsCemiText, IsTextOfIpFrame, IsTunnelText, IsRefusedText, IsFrameText};

use crate::{cemi, gateway, ip, tpdu};
use knx_model::{IpFrame, IpRefused, Ldata, NoMemory, Octets};
use std::alloc::Global;

/// Appends the text of a TPDU's octets.
#[tactic(auto, using(crate::proofs::Texts::tpdu_read, crate::proofs::Texts::tpdu_refused))]
fn put_tpdu(alloc: Global, out: &mut Octets, octets: &[u8]) -> Result<(), NoMemory>
    ensures { OnOk result (GrowsBy (IsTpduText octets.now) out.old out.new) }
{
    match apdu_frames::decode(octets) {
        Ok(frame) => tpdu::put_line(alloc, out, &frame),
        Err(why) => tpdu::put_refusal_line(alloc, out, why),
    }
}

/// Appends the line of a frame of the link layer, and the text of its TPDU.
#[tactic(auto, using(crate::proofs::Texts::ldata_put))]
fn put_ldata(alloc: Global, out: &mut Octets, frame: &Ldata) -> Result<(), NoMemory>
    ensures { OnOk result (GrowsBy (IsTextOfLdata frame.now) out.old out.new) }
{
    cemi::put_line(alloc, out, frame)?;
    put_tpdu(alloc, out, frame.tpdu.as_slice())
}

/// Appends the text of octets of the link layer.
#[tactic(auto, using(crate::proofs::Texts::cemi_read, crate::proofs::Texts::cemi_refused))]
fn put_cemi(alloc: Global, out: &mut Octets, octets: &[u8]) -> Result<(), NoMemory>
    ensures { OnOk result (GrowsBy (IsCemiText octets.now) out.old out.new) }
{
    match cemi_frames::decode(octets) {
        Ok(frame) => put_ldata(alloc, out, &frame),
        Err(why) => cemi::put_refusal_line(alloc, out, why),
    }
}

/// Appends the line of a frame of KNXnet/IP, and the text of what a tunnelling request carries.
#[tactic(auto, using(crate::proofs::Texts::request_put, crate::proofs::Texts::other_put))]
fn put_ip_frame(alloc: Global, out: &mut Octets, frame: &IpFrame) -> Result<(), NoMemory>
    ensures { OnOk result (GrowsBy (IsTextOfIpFrame frame.now) out.old out.new) }
{
    ip::put_line(alloc, out, frame)?;
    match frame {
        IpFrame::TunnellingRequest { cemi, .. } => put_cemi(alloc, out, cemi.as_slice()),
        _ => Ok(()),
    }
}

/// Appends the text of the octets of another service than those of discovery.
#[tactic(auto, using(crate::proofs::Texts::ip_read, crate::proofs::Texts::ip_refused))]
fn put_tunnel_datagram(alloc: Global, out: &mut Octets, octets: &[u8]) -> Result<(), NoMemory>
    ensures { OnOk result (GrowsBy (IsTunnelText octets.now) out.old out.new) }
{
    match knxnetip_frames::decode(octets) {
        Ok(frame) => put_ip_frame(alloc, out, &frame),
        Err(why) => ip::put_refusal_line(alloc, out, why),
    }
}

/// Appends the text of octets that discovery refuses so.
#[tactic(auto, using(crate::proofs::Texts::alone))]
fn put_refused(
    alloc: Global,
    out: &mut Octets,
    octets: &[u8],
    why: IpRefused,
) -> Result<(), NoMemory>
    ensures { OnOk result (GrowsBy (IsRefusedText why octets.now) out.old out.new) }
{
    match why {
        IpRefused::Header | IpRefused::Service => put_tunnel_datagram(alloc, out, octets),
        IpRefused::Length => ip::put_refusal_line(alloc, out, IpRefused::Length),
        IpRefused::Body => ip::put_refusal_line(alloc, out, IpRefused::Body),
    }
}

/// Appends the text of a datagram's octets.
#[tactic(auto, using(crate::proofs::Texts::find_read, crate::proofs::Texts::find_refused))]
fn put_datagram(alloc: Global, out: &mut Octets, octets: &[u8]) -> Result<(), NoMemory>
    ensures { OnOk result (GrowsBy (IsFrameText octets.now) out.old out.new) }
{
    match discovery::decode(octets) {
        Ok(frame) => gateway::put_line(alloc, out, &frame),
        Err(why) => put_refused(alloc, out, octets, why),
    }
}

/// The parts of a datagram, in up to three lines: its frame of KNXnet/IP, one of discovery among them, the frame of the link layer in a
/// tunnelling request, and the TPDU in that one; or in place of the first that is none its least refusal.
#[tactic(auto, using(crate::proofs::Texts::whole))]
pub fn frame_text(alloc: Global, octets: &[u8]) -> Result<Octets, NoMemory>
    ensures { IfOk result (λ text. IsFrameText octets.now text) }
{
    let mut out = Octets::new(alloc);
    put_datagram(alloc, &mut out, octets)?;
    Ok(out)
}
