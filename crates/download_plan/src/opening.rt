//! The two reads that a plan begins with: the descriptor, and the greatest length of an APDU, by which a device says how long the
//! pieces may be.

ghost use Rattle.std.specs.Prelude.{◌≡◌, ◌≢◌, Some};
ghost use Rattle.knx_model.specs.declared.frames.tpdu.Apdu.TheVariants.{DescriptorRead, DescriptorResponse};
ghost use Rattle.knx_model.specs.LoadPlan.{size_by, size_told};
ghost use Rattle.knx_model.specs.Operations.{expecting};
ghost use Rattle.download_plan.specs.Step.{op_of, length_noted};

use crate::operation::asks;
use apdu_frames::{service_in, service_octets};
use knx_model::{Apdu, DEVICE_DESCRIPTOR, Expect, Op, PieceSize};

/// The object index of the device object.
const DEVICE_OBJECT: u8 = 0;

/// The property of the device object that tells the greatest length of an APDU.
const GREATEST_LENGTH: u8 = 56;

/// The least such length with which a device takes pieces of 60 octets.
const LONG_ENOUGH: u16 = 63;

/// The number of the operation whose answer is noted.
pub const NOTED: u32 = 1;

/// The descriptor is read, which is that of a System B device.
pub fn read_descriptor() -> Op
    ensures { result ≡ op_of (expecting (DescriptorRead 0) (DescriptorResponse 0 (Some 0x07B0))) }
{
    asks(
        Apdu::DescriptorRead(0),
        Apdu::DescriptorResponse {
            kind: 0,
            value: Some(DEVICE_DESCRIPTOR),
        },
    )
}

/// The greatest length of an APDU is read, and noted.
pub fn read_greatest_length() -> Op
    ensures { result ≡ length_noted }
{
    Op {
        apdu: service_octets(Apdu::PropertyRead {
            object: DEVICE_OBJECT,
            property: GREATEST_LENGTH,
            count: 1,
            start: 1,
        }),
        expect: Expect::Note,
    }
}

fn size_told(count: u8, octets: &[u8]) -> PieceSize
    ensures { result ≡ size_told count octets.now }
{
    match octets {
        [high, low] if count == 1 && u16::from_be_bytes([*high, *low]) >= LONG_ENOUGH => {
            PieceSize::Sixty
        }
        _ => PieceSize::Twelve,
    }
}

/// The size of the pieces for a device that gave this answer.
fn size_by(got: &[u8]) -> PieceSize
    ensures { result ≡ size_by (Some got.now) }
{
    match service_in(got) {
        Some(Apdu::PropertyResponse { count, octets, .. }) => size_told(count, octets.as_slice()),
        _ => PieceSize::Twelve,
    }
}

/// The size of the pieces once the answer to the k-th operation came.
pub fn size_after(k: u32, size: PieceSize, got: &[u8]) -> PieceSize
    ensures noted { k ≡ 1 → result ≡ size_by (Some got.now) }
    ensures stays { k ≢ 1 → result ≡ size }
{
    if k == NOTED { size_by(got) } else { size }
}
