//! The frames that a device has to send.

ghost use Rattle.std.specs.Prelude.{◌≡◌, ◌+◌, ◌<◌, ◌∷◌, ◌++◌, [], true, false};
ghost use Rattle.std.specs.VecDeque.{deque_len, deque_capacity};
ghost use Rattle.knx_model.specs.DeviceFrames.{own_frame};
ghost use Rattle.device_sim.specs.Sending.{and_frame};

use knx_model::{ApduOctets, GroupAddr, IndAddr, Ldata, LdataCode};
use std::collections::VecDeque;

/// The priority of what a device sends: low.
const PRIORITY: u8 = 3;

/// The hop count of what a device sends.
const HOP_COUNT: u8 = 6;

/// A frame of the device to one device.
pub fn frame_to(address: IndAddr, to: IndAddr, tpdu: ApduOctets) -> Ldata
    ensures { result ≡ own_frame address false to.raw tpdu }
{
    Ldata {
        code: LdataCode::Ind,
        error: false,
        group: false,
        priority: PRIORITY,
        hops: HOP_COUNT,
        source: address.raw,
        destination: to.raw,
        tpdu,
    }
}

/// A frame of the device to a group.
pub fn frame_to_group(address: IndAddr, group: GroupAddr, tpdu: ApduOctets) -> Ldata
    ensures { result ≡ own_frame address true group.raw tpdu }
{
    Ldata {
        code: LdataCode::Ind,
        error: false,
        group: true,
        priority: PRIORITY,
        hops: HOP_COUNT,
        source: address.raw,
        destination: group.raw,
        tpdu,
    }
}

/// Puts a frame behind those that wait. There is room for it.
pub fn queue(unsent: &mut VecDeque<Ldata>, frame: Ldata)
    requires { deque_len unsent.old < deque_capacity unsent.old }
    ensures items { unsent.new.items ≡ unsent.old.items ++ frame ∷ [] }
    ensures len { deque_len unsent.new ≡ deque_len unsent.old + 1 }
    ensures capacity { deque_capacity unsent.new ≡ deque_capacity unsent.old }
{
    let _ = unsent.push_back(frame);
}

/// Puts the frame that these octets are, where there are any, behind those that wait. There is room for it.
pub fn queue_if(
    unsent: &mut VecDeque<Ldata>,
    address: IndAddr,
    to: IndAddr,
    tpdu: Option<ApduOctets>,
)
    requires { deque_len unsent.old < deque_capacity unsent.old }
    ensures { unsent.new.items ≡ and_frame unsent.old.items address to tpdu }
{
    if let Some(tpdu) = tpdu {
        queue(unsent, frame_to(address, to, tpdu));
    }
}
