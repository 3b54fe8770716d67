//! What group telegrams act on, by the octets of the tables.

ghost use Rattle.std.specs.Prelude.{◌≤◌};

mod indexed;

use device_tables::{
    Acts, GroupAddr, GroupService, Image, LongValue, NoMemory, ObjSpec, Objects, Octets, Value,
    acts, linked, object_in_table, takes_form, zero_value,
};
use std::alloc::Global;
use std::process::Abort;
use std::test::*;

/// The three tables of an image.
#[derive(Clone, Copy)]
struct Tables<'a> {
    addr: &'a [u8],
    assoc: &'a [u8],
    objs: &'a [u8],
}

/// Fails where the set isn't of just these objects.
fn assert_objects(rt: &impl Abort, set: &Objects, objects: &[u8]) {
    for object in 0..=u8::MAX {
        assert_eq!(rt;
            set.has(object),
            objects.contains(&object),
            "object {object} of {objects:?}"
        );
    }
}

/// What the telegram acts on by the tables.
fn acts_on(
    alloc: Global,
    tables: Tables<'_>,
    raw: u16,
    service: &GroupService,
) -> Result<Acts, NoMemory> {
    let image = Image {
        addr: Octets::from_slice(alloc, tables.addr)?,
        assoc: Octets::from_slice(alloc, tables.assoc)?,
        objs: Octets::from_slice(alloc, tables.objs)?,
        params: Octets::new(alloc),
    };
    Ok(acts(&image, GroupAddr { raw }, service))
}

/// Fails where the telegram isn't written to just these objects, or another object answers.
fn assert_acts(
    rt: &impl Abort,
    alloc: Global,
    tables: Tables<'_>,
    raw: u16,
    service: &GroupService,
    written: &[u8],
    answers: Option<u8>,
) -> Result<(), Fail> {
    let acts = acts_on(alloc, tables, raw, service).ok().ok_or("memory")?;
    assert_objects(rt, &acts.written, written);
    assert_eq!(rt; acts.answers, answers, "{raw} {service:?}");
    Ok(())
}

fn short() -> Value {
    Value::Short(1)
}

fn long(len: usize) -> Value
    requires { len ≤ 14 }
{
    Value::Long(LongValue::from_slice(&[1; 14][..len]))
}

/// Object 1 is linked to 1/2/3, and object 2 to 0/0/1.
const HALL: Tables<'static> = Tables {
    addr: b"\x00\x02\x00\x01\x0A\x03",
    assoc: b"\x00\x02\x00\x02\x00\x01\x00\x01\x00\x02",
    objs: b"\x00\x02\x57\x00\x17\x00",
};

#[test]
fn a_hall(rt: HostRuntime) -> Result<(), Fail> {
    let write = GroupService::Write(short());
    assert_acts(&rt, rt.alloc(), HALL, 0x0A03, &write, &[1], None)?;
    assert_acts(&rt, rt.alloc(), HALL, 0x0001, &write, &[2], None)?;
    assert_acts(&rt, rt.alloc(), HALL, 0x0002, &write, &[], None)?;
    assert_acts(
        &rt,
        rt.alloc(),
        HALL,
        0x0A03,
        &GroupService::Write(long(1)),
        &[],
        None,
    )?;
    assert_acts(
        &rt,
        rt.alloc(),
        HALL,
        0x0A03,
        &GroupService::Response(short()),
        &[],
        None,
    )?;
    assert_acts(
        &rt,
        rt.alloc(),
        HALL,
        0x0A03,
        &GroupService::Read,
        &[],
        None,
    )
}

/// The flags of the objects 1 to 8: CW, CR, CU, W, R, U, all, C. Each is linked, the last one first.
const FLAGS: Tables<'static> = Tables {
    addr: b"\x00\x01\x0A\x03",
    assoc: b"\x00\x08\x00\x01\x00\x08\x00\x01\x00\x07\x00\x01\x00\x06\x00\x01\x00\x05\x00\x01\x00\x04\x00\x01\x00\x03\x00\x01\x00\x02\x00\x01\x00\x01",
    objs: b"\x00\x08\x17\x00\x0F\x00\x87\x00\x13\x00\x0B\x00\x83\x00\xFF\x00\x07\x00",
};

#[test]
fn flags(rt: HostRuntime) -> Result<(), Fail> {
    assert_acts(
        &rt,
        rt.alloc(),
        FLAGS,
        0x0A03,
        &GroupService::Write(short()),
        &[1, 7],
        None,
    )?;
    assert_acts(
        &rt,
        rt.alloc(),
        FLAGS,
        0x0A03,
        &GroupService::Response(short()),
        &[3, 7],
        None,
    )?;
    assert_acts(
        &rt,
        rt.alloc(),
        FLAGS,
        0x0A03,
        &GroupService::Read,
        &[],
        Some(2),
    )
}

/// The objects 1 to 16 have the size codes 0 to 15.
const SIZES: Tables<'static> = Tables {
    addr: b"\x00\x01\x0A\x03",
    assoc: b"\x00\x10\x00\x01\x00\x01\x00\x01\x00\x02\x00\x01\x00\x03\x00\x01\x00\x04\x00\x01\x00\x05\x00\x01\x00\x06\x00\x01\x00\x07\x00\x01\x00\x08\x00\x01\x00\x09\x00\x01\x00\x0A\x00\x01\x00\x0B\x00\x01\x00\x0C\x00\x01\x00\x0D\x00\x01\x00\x0E\x00\x01\x00\x0F\x00\x01\x00\x10",
    objs: b"\x00\x10\xFF\x00\xFF\x01\xFF\x02\xFF\x03\xFF\x04\xFF\x05\xFF\x06\xFF\x07\xFF\x08\xFF\x09\xFF\x0A\xFF\x0B\xFF\x0C\xFF\x0D\xFF\x0E\xFF\x0F",
};

#[test]
fn forms(rt: HostRuntime) -> Result<(), Fail> {
    let rows: [(Value, &[u8]); 13] = [
        (short(), &[1, 2, 3, 4, 5, 6]),
        (long(0), &[]),
        (long(1), &[7, 8]),
        (long(2), &[9]),
        (long(3), &[10]),
        (long(4), &[11]),
        (long(5), &[]),
        (long(6), &[12]),
        (long(7), &[]),
        (long(8), &[13]),
        (long(10), &[14]),
        (long(12), &[]),
        (long(14), &[15]),
    ];
    for (value, objects) in rows {
        let write = GroupService::Write(value);
        assert_acts(&rt, rt.alloc(), SIZES, 0x0A03, &write, objects, None)?;
    }
    Ok(())
}

#[test]
fn zero_values(rt: HostRuntime) {
    assert_eq!(rt; zero_value(0), Value::Short(0));
    assert_eq!(rt; zero_value(5), Value::Short(0));
    assert_eq!(rt; zero_value(6), Value::Long(LongValue::from_slice(&[0])));
    assert_eq!(rt; zero_value(10), Value::Long(LongValue::from_slice(&[0; 4])));
    assert_eq!(rt;
        zero_value(14),
        Value::Long(LongValue::from_slice(&[0; 14]))
    );
    assert_eq!(rt; zero_value(15), Value::Short(0));
    assert!(rt; takes_form(6, &zero_value(6)) && !takes_form(15, &zero_value(15)));
}

/// The addresses 0/0/1 and 1/2/3.
const TWO: &[u8] = b"\x00\x02\x00\x01\x0A\x03";

/// The second address with object 5.
const SECOND: &[u8] = b"\x00\x01\x00\x02\x00\x05";

/// Fails where the tables don't link just these objects to 1/2/3.
fn assert_linked(rt: &impl Abort, addr: &[u8], assoc: &[u8], objects: &[u8]) {
    let set = linked(addr, assoc, GroupAddr { raw: 0x0A03 });
    assert_objects(rt, &set, objects);
}

#[test]
fn address_tables_of_any_octets(rt: HostRuntime) {
    // the group stands at the places 1 and 3, and the pairs of an object lie apart
    let places = b"\x00\x04\x00\x03\x00\x09\x00\x02\x00\x04\x00\x01\x00\x02\x00\x03\x00\x04";
    assert_linked(&rt, b"\x00\x03\x0A\x03\x00\x01\x0A\x03", places, &[2, 4, 9]);
    // the count is above the list, and below it
    assert_linked(&rt, b"\xFF\xFF\x00\x01\x0A\x03", SECOND, &[5]);
    assert_linked(&rt, b"\x00\x01\x00\x01\x0A\x03", SECOND, &[]);
    // an address isn't whole
    assert_linked(&rt, b"\x00\x02\x00\x01\x0A", SECOND, &[]);
    // the count is no entry
    assert_linked(&rt, b"\x0A\x03", b"\x00\x01\x00\x00\x00\x05", &[]);
    // no count
    let first = b"\x00\x01\x00\x01\x00\x05";
    assert_linked(&rt, b"", first, &[]);
    assert_linked(&rt, b"\x00", first, &[]);
}

#[test]
fn association_tables_of_any_octets(rt: HostRuntime) {
    // the count is above the list, and below it
    assert_linked(
        &rt,
        TWO,
        b"\xFF\xFF\x00\x02\x00\x05\x00\x02\x00\x06",
        &[5, 6],
    );
    assert_linked(&rt, TWO, b"\x00\x01\x00\x02\x00\x05\x00\x02\x00\x06", &[5]);
    assert_linked(&rt, TWO, b"\x00\x00\x00\x02\x00\x05", &[]);
    // a pair isn't whole
    assert_linked(&rt, TWO, b"\x00\x02\x00\x02\x00\x05\x00\x02\x00", &[5]);
    // a place of 0, and one after the last
    assert_linked(&rt, TWO, b"\x00\x02\x00\x00\x00\x05\x00\x03\x00\x06", &[]);
    // the objects 0, 255, 256 and 261
    let objects = b"\x00\x04\x00\x02\x00\x00\x00\x02\x00\xFF\x00\x02\x01\x00\x00\x02\x01\x05";
    assert_linked(&rt, TWO, objects, &[255]);
    // no count
    assert_linked(&rt, TWO, b"", &[]);
    assert_linked(&rt, TWO, b"\x00", &[]);
}

#[test]
fn object_tables(rt: HostRuntime) {
    let spec = ObjSpec {
        flags: 0x17,
        size: 2,
    };
    assert_eq!(rt; object_in_table(b"\x00\x01\x17\x02", 1), Some(spec));
    assert_eq!(rt; object_in_table(b"\xFF\xFF\x57\x00\x17\x02", 2), Some(spec));
    assert_eq!(rt; object_in_table(b"\x00\x01\x57\x00\x17\x02", 2), None);
    assert_eq!(rt; object_in_table(b"\x00\x02\x57\x00\x17", 2), None);
    assert_eq!(rt; object_in_table(b"\x00\x02\x57\x00", 0), None);
    assert_eq!(rt; object_in_table(b"\x00", 1), None);
}

/// An object that the objects' table lacks isn't acted on.
#[test]
fn lacking_objects(rt: HostRuntime) -> Result<(), Fail> {
    let cut = Tables {
        objs: b"\x00\x08\x17\x00\x0F\x00\x87\x00\x13\x00\x0B\x00\x83\x00\xFF",
        ..FLAGS
    };
    assert_acts(
        &rt,
        rt.alloc(),
        cut,
        0x0A03,
        &GroupService::Write(short()),
        &[1],
        None,
    )?;
    let empty = Tables { objs: b"", ..FLAGS };
    assert_acts(
        &rt,
        rt.alloc(),
        empty,
        0x0A03,
        &GroupService::Read,
        &[],
        None,
    )
}
