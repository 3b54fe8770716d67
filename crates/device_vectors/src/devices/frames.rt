//! Which frames a device takes: extended ones, or standard ones alone.

use crate::devices::deeds::{
    ADDRESS, Deed, GROUP, NOTHING, OTHER, Row, SIXTEEN, START, first_wrong, frame,
};
use device_sim::{Device, Took};
use knx_model::NoMemory;
use std::alloc::Global;
use std::test::Fail;

const LONG: &[u8] = b"\x02\x8D\x40\x00\x01\x02\x03\x04\x05\x06\x07\x08\x09\x0A\x0B\x0C\x0D";

const SHORT: &[u8] = b"\x02\x8C\x40\x00\x01\x02\x03\x04\x05\x06\x07\x08\x09\x0A\x0B\x0C";

#[test]
fn a_device_of_extended_frames(rt: HostRuntime) -> Result<(), Fail> {
    let device = &mut Device::blank(rt.alloc(), ADDRESS)?;
    let rows: [Row<'_>; 4] = [
        (Deed::Serve(START), &[b"\x03\xD6\x01\x05\x10\x01\x02"]),
        (Deed::Serve(SIXTEEN), &[b"\x03\xD6\x01\x05\x10\x01\x02"]),
        (Deed::Serve(LONG), NOTHING),
        (
            Deed::Serve(b"\x02\x0D\x40\x00"),
            &[b"\x02\x4D\x40\x00\x01\x02\x03\x04\x05\x06\x07\x08\x09\x0A\x0B\x0C\x0D"],
        ),
    ];
    let wrong = first_wrong(rt.alloc(), device, &rows)?;
    assert!(rt; wrong.is_none(), "row {wrong:?}");
    Ok(())
}

#[test]
fn a_device_of_standard_frames(rt: HostRuntime) -> Result<(), Fail> {
    let device = &mut Device::blank(rt.alloc(), ADDRESS)?;
    device.set_standard();
    let rows: [Row<'_>; 6] = [
        (
            Deed::Serve(b"\x03\xD5\x00\x38\x10\x01"),
            &[b"\x03\xD6\x00\x38\x10\x01\x00\x0F"],
        ),
        (Deed::Serve(START), &[b"\x03\xD6\x01\x05\x10\x01\x02"]),
        (Deed::Serve(SIXTEEN), &[b"\x03\xD6\x01\x05\x10\x01\x02"]),
        (Deed::Serve(SHORT), NOTHING),
        (
            Deed::Serve(b"\x02\x0C\x40\x00"),
            &[b"\x02\x4C\x40\x00\x01\x02\x03\x04\x05\x06\x07\x08\x09\x0A\x0B\x0C"],
        ),
        (Deed::Serve(b"\x02\x0D\x40\x00"), &[b"\x02\x40\x40\x00"]),
    ];
    let wrong = first_wrong(rt.alloc(), device, &rows)?;
    assert!(rt; wrong.is_none(), "row {wrong:?}");
    Ok(())
}

/// Whether each of the frames, to a group or not, is taken by the device as told.
fn takes_as_told(
    alloc: Global,
    device: &mut Device,
    table: &[(bool, u16, &[u8], Took)],
) -> Result<bool, NoMemory> {
    for (group, destination, tpdu, took) in table {
        let said = device.take(alloc, &frame(*group, *destination, tpdu), 0)?;
        if said != *took {
            return Ok(false);
        }
    }
    Ok(true)
}

#[test]
fn which_frames_a_device_takes(rt: HostRuntime) -> Result<(), Fail> {
    let device = &mut Device::blank(rt.alloc(), ADDRESS)?;
    assert!(rt;
        takes_as_told(
            rt.alloc(),
            device,
            &[(false, ADDRESS.raw, LONG, Took::Taken)]
        )?
    );
    device.set_standard();
    let table: [(bool, u16, &[u8], Took); 5] = [
        (false, ADDRESS.raw, SHORT, Took::Taken),
        (false, ADDRESS.raw, LONG, Took::TooLong),
        (false, OTHER, LONG, Took::NotMine),
        (true, GROUP, LONG, Took::TooLong),
        (true, GROUP, SHORT, Took::Taken),
    ];
    assert!(rt; takes_as_told(rt.alloc(), device, &table)?);
    device.cut();
    assert!(rt; takes_as_told(rt.alloc(), device, &[(false, ADDRESS.raw, LONG, Took::Off)])?);
    Ok(())
}
