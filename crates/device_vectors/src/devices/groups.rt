//! What group telegrams do to a device.

use crate::devices::deeds::{COMPLETED, Deed, START, goes, loaded, serves};
use device_sim::{Device, Value};
use knx_model::NoMemory;
use std::alloc::Global;
use std::test::Fail;

fn is_short(value: Option<Value>, wanted: u8) -> bool {
    match value {
        Some(Value::Short(bits)) => bits == wanted,
        _ => false,
    }
}

fn is_long(value: Option<Value>, wanted: &[u8]) -> bool {
    match value {
        Some(Value::Long(octets)) => octets.as_slice() == wanted,
        _ => false,
    }
}

/// The objects 1 to 4 are linked to the group 1/2/3. Their flags are communicate and write; write alone; communicate, update and read;
/// communicate, write and read. The last one is of one octet.
fn linked(alloc: Global) -> Result<Device, NoMemory> {
    loaded(
        alloc,
        b"\x00\x01\x0A\x03",
        b"\x00\x04\x00\x01\x00\x01\x00\x01\x00\x02\x00\x01\x00\x03\x00\x01\x00\x04",
        b"\x00\x04\x17\x00\x13\x00\x8F\x03\x1F\x07",
        b"",
    )
}

#[test]
fn group_telegrams_by_flag_and_size(rt: HostRuntime) -> Result<(), Fail> {
    let device = &mut linked(rt.alloc())?;
    // a write of a short value, a response, a write of one octet and one of two, and a read, which the lowest object with read answers
    let table: [(&[u8], &[&[u8]], [u8; 3], &[u8]); 5] = [
        (b"\x00\x81", &[], [1, 0, 0], b"\x00"),
        (b"\x00\x42", &[], [1, 0, 2], b"\x00"),
        (b"\x00\x80\x5A", &[], [1, 0, 2], b"\x5A"),
        (b"\x00\x80\x5B\x5C", &[], [1, 0, 2], b"\x5A"),
        (b"\x00\x00", &[b"\x00\x42"], [1, 0, 2], b"\x5A"),
    ];
    for (tpdu, answer, [first, second, third], fourth) in table {
        assert!(rt;
            goes(rt.alloc(), device, &(Deed::Telegram(tpdu), answer))?,
            "at {tpdu:?}"
        );
        assert!(rt;
            is_short(device.value(1), first) && is_short(device.value(2), second),
            "at {tpdu:?}"
        );
        assert!(rt;
            is_short(device.value(3), third) && is_long(device.value(4), fourth),
            "at {tpdu:?}"
        );
    }
    assert!(rt; device.value(5).is_none());
    // a change of a load state makes all values zero, and a service that changes none doesn't
    let completed: &[&[u8]] = &[b"\x03\xD6\x01\x05\x10\x01\x01"];
    assert!(rt; serves(rt.alloc(), device, COMPLETED, completed)? && is_short(device.value(1), 1));
    assert!(rt;
        serves(
            rt.alloc(),
            device,
            START,
            &[b"\x03\xD6\x01\x05\x10\x01\x02"]
        )?
    );
    assert!(rt; serves(rt.alloc(), device, COMPLETED, completed)? && is_short(device.value(1), 0));
    Ok(())
}
