//! Services of a device, and what comes of numbered data.

use crate::devices::deeds::{
    ADDRESS, COMPLETED, Deed, NOTHING, Row, SIXTEEN, START, UNLOAD_APPLICATION, first_wrong, sends,
    small, to_device,
};
use device_sim::{Device, Sending};
use std::test::Fail;

#[test]
fn services_and_their_answers(rt: HostRuntime) -> Result<(), Fail> {
    let device = &mut Device::blank(rt.alloc(), ADDRESS)?;
    let rows: [Row<'_>; 8] = [
        // the descriptor of type 0, and of another type
        (Deed::Serve(b"\x03\x00"), &[b"\x03\x40\x07\xB0"]),
        (Deed::Serve(b"\x03\x01"), &[b"\x03\x7F"]),
        // the object type of the device, and the greatest length of an APDU
        (
            Deed::Serve(b"\x03\xD5\x00\x01\x10\x01"),
            &[b"\x03\xD6\x00\x01\x10\x01\x00\x00"],
        ),
        (
            Deed::Serve(b"\x03\xD5\x00\x38\x10\x01"),
            &[b"\x03\xD6\x00\x38\x10\x01\x00\x3F"],
        ),
        // the table reference of the association table, two elements of it, and an element other than 1
        (
            Deed::Serve(b"\x03\xD5\x02\x07\x10\x01"),
            &[b"\x03\xD6\x02\x07\x10\x01\x00\x00\x50\x00"],
        ),
        (
            Deed::Serve(b"\x03\xD5\x02\x07\x20\x01"),
            &[b"\x03\xD6\x02\x07\x00\x01"],
        ),
        (
            Deed::Serve(b"\x03\xD5\x02\x07\x10\x00"),
            &[b"\x03\xD6\x02\x07\x00\x00"],
        ),
        // memory that isn't allocated
        (Deed::Serve(b"\x02\x04\x40\x00"), &[b"\x02\x40\x40\x00"]),
    ];
    let wrong = first_wrong(rt.alloc(), device, &rows)?;
    assert!(rt; wrong.is_none(), "row {wrong:?}");
    Ok(())
}

#[test]
fn writes_while_a_part_is_loaded(rt: HostRuntime) -> Result<(), Fail> {
    let device = &mut Device::blank(rt.alloc(), ADDRESS)?;
    let rows: [Row<'_>; 7] = [
        (Deed::Serve(START), &[b"\x03\xD6\x01\x05\x10\x01\x02"]),
        (Deed::Serve(SIXTEEN), &[b"\x03\xD6\x01\x05\x10\x01\x02"]),
        // two octets are written and read
        (Deed::Serve(b"\x02\x82\x40\x00\xAB\xCD"), NOTHING),
        (
            Deed::Serve(b"\x02\x02\x40\x00"),
            &[b"\x02\x42\x40\x00\xAB\xCD"],
        ),
        (Deed::Serve(COMPLETED), &[b"\x03\xD6\x01\x05\x10\x01\x01"]),
        (
            Deed::Serve(UNLOAD_APPLICATION),
            &[b"\x03\xD6\x04\x05\x10\x01\x00"],
        ),
        // a group service has no answer
        (Deed::Serve(b"\x00\x80"), NOTHING),
    ];
    let wrong = first_wrong(rt.alloc(), device, &rows)?;
    assert!(rt; wrong.is_none(), "row {wrong:?}");
    Ok(())
}

#[test]
fn services_by_numbered_data(rt: HostRuntime) -> Result<(), Fail> {
    let device = &mut small(rt.alloc())?;
    let rows: [Row<'_>; 7] = [
        // a closed device answers numbered data by T_Disconnect
        (Deed::Take(b"\x43\x00"), &[b"\x81"]),
        (Deed::Take(b"\x80"), NOTHING),
        (Deed::Take(b"\x43\x00"), &[b"\xC2", b"\x43\x40\x07\xB0"]),
        // the same number again is acknowledged and dropped
        (Deed::Take(b"\x43\x00"), &[b"\xC2"]),
        // the next one is neither taken nor acknowledged before the answer's T_ACK
        (Deed::Take(b"\x47\x00"), NOTHING),
        (Deed::Take(b"\xC2"), NOTHING),
        (Deed::Take(b"\x4B\x00"), &[b"\xCB"]),
    ];
    let wrong = first_wrong(rt.alloc(), device, &rows)?;
    assert!(rt; wrong.is_none(), "row {wrong:?}");
    device.shut(rt.alloc())?;
    assert!(rt; sends(device, &[b"\x81"]));
    Ok(())
}

#[test]
fn an_answer_is_repeated_and_an_idle_connection_closes(rt: HostRuntime) -> Result<(), Fail> {
    let device = &mut Device::blank(rt.alloc(), ADDRESS)?;
    device.take(rt.alloc(), &to_device(b"\x80"), 0)?;
    device.take(rt.alloc(), &to_device(b"\x43\x00"), 0)?;
    assert!(rt; device.deadline() == Some(3000));
    // what waits goes first, then the answer again after its wait, and the closing where nothing was sent or taken for longer
    let table: [(u64, Option<Sending>, &[u8]); 6] = [
        (9000, Some(Sending::Waiting), b"\xC2"),
        (0, Some(Sending::Waiting), b"\x43\x40\x07\xB0"),
        (2999, None, b""),
        (3000, Some(Sending::Repeat), b"\x43\x40\x07\xB0"),
        (9000, Some(Sending::Closing), b"\x81"),
        (9000, None, b""),
    ];
    for (now, next, tpdu) in table {
        assert!(rt; device.next_sending(now) == next, "at {now}");
        if let Some(frame) = device.sends(now) {
            assert!(rt; frame.tpdu.as_slice() == tpdu, "at {now}");
        }
    }
    Ok(())
}
