//! Writes that a power cut tears, and worn memory.

use crate::devices::deeds::{
    ADDRESS, Deed, NOTHING, Row, SIXTEEN, START, first_wrong, serves, small, takes, takes_torn,
    to_device,
};
use device_sim::{Device, Took, written_front};
use knx_model::{Image, NoMemory};
use std::alloc::Global;
use std::test::Fail;

fn has_params(image: Option<&Image>, params: &[u8]) -> bool {
    match image {
        Some(image) => image.params.as_slice() == params,
        None => false,
    }
}

/// Whether it is the device of this address, and runs with this parameter memory.
fn is_loaded(alloc: Global, device: &Device, params: &[u8]) -> Result<bool, NoMemory> {
    let image = device.image(alloc)?;
    Ok(device.address() == ADDRESS && has_params(image.as_ref(), params))
}

#[test]
fn a_loaded_device_and_the_cut_of_an_unload(rt: HostRuntime) -> Result<(), Fail> {
    let device = &mut small(rt.alloc())?;
    assert!(rt; is_loaded(rt.alloc(), device, b"\x04\x05\x06")?);
    assert!(rt; takes(rt.alloc(), device, b"\x80", NOTHING)?);
    assert!(rt; takes_torn(device, &to_device(UNLOAD_APPLICATION), 1));
    let took = device.take(rt.alloc(), &to_device(b"\x80"), 0)?;
    assert!(rt; took == Took::Off);
    device.on();
    assert!(rt; serves(rt.alloc(), device, b"\x03\x00", &[b"\x03\x40\x07\xB0"])?);
    assert!(rt; !device.runs());
    let front = written_front(rt.alloc(), b"\x02\x82\x40\x00\xAB\xCD", 1)?;
    assert!(rt; front.as_slice() == b"\xAB".as_slice());
    Ok(())
}

/// Unload the application and the address table, by numbered data.
const UNLOAD_APPLICATION: &[u8] =
    b"\x43\xD7\x04\x05\x10\x01\x04\x00\x00\x00\x00\x00\x00\x00\x00\x00";

const UNLOAD_ADDRESSES: &[u8] = b"\x43\xD7\x01\x05\x10\x01\x04\x00\x00\x00\x00\x00\x00\x00\x00\x00";

#[test]
fn a_write_cut_before_its_first_octet(rt: HostRuntime) -> Result<(), Fail> {
    let device = &mut small(rt.alloc())?;
    assert!(rt; takes(rt.alloc(), device, b"\x80", NOTHING)?);
    assert!(rt; takes_torn(device, &to_device(UNLOAD_ADDRESSES), 0));
    device.on();
    assert!(rt; device.runs());
    Ok(())
}

#[test]
fn worn_memory_keeps_other_octets(rt: HostRuntime) -> Result<(), Fail> {
    let device = &mut Device::blank(rt.alloc(), ADDRESS)?;
    let rows: [Row<'_>; 5] = [
        (Deed::Serve(START), &[b"\x03\xD6\x01\x05\x10\x01\x02"]),
        (Deed::Serve(SIXTEEN), &[b"\x03\xD6\x01\x05\x10\x01\x02"]),
        (Deed::Take(b"\x80"), NOTHING),
        (Deed::TakeWorn(b"\x42\x82\x40\x00\x00\x5F"), &[b"\xC2"]),
        (
            Deed::Serve(b"\x02\x02\x40\x00"),
            &[b"\x02\x42\x40\x00\xFF\xA0"],
        ),
    ];
    let wrong = first_wrong(rt.alloc(), device, &rows)?;
    assert!(rt; wrong.is_none(), "row {wrong:?}");
    Ok(())
}
