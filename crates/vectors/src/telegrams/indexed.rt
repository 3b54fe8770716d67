//! The index of the tables says what the tables say, also where their addresses don't ascend.

ghost use Rattle.std.specs.Prelude.{◌≡◌, ◌<◌};

use super::{Tables, acts_on, assert_acts, long, short};
use device_tables::{GroupAddr, GroupService, NoMemory, Objects, Steps, TableIndex, linked};
use std::alloc::{AllocError, Global};
use std::marker::Brand;
use std::process::Abort;
use std::sync::ledger::{Blank, Ledger};
use std::test::*;

/// The most octets of an association table.
const MOST_OCTETS: usize = 8192;

/// The objects that the index finds for a group.
fn found<L: Ledger>(index: &TableIndex, group: GroupAddr, blank: Blank) -> Objects
    requires name { blank.name ≡ L.name }
    requires parts { blank.parts ≡ L.parts }
    requires some { 0 < blank.parts }
{
    let mut steps = Steps::<L>::none(blank);
    index.linked(group, &mut steps)
}

/// Fails where the sets differ.
fn assert_same(rt: &impl Abort, one: &Objects, other: &Objects) {
    for object in 0..=u8::MAX {
        assert_eq!(rt; one.has(object), other.has(object), "object {object}");
    }
}

/// Fails where the index links other objects to a group than the tables.
fn assert_links(rt: &impl Abort, index: &TableIndex, tables: Tables<'_>, raw: u16) {
    let group = GroupAddr { raw };
    let objects = linked(tables.addr, tables.assoc, group);
    assert_same(rt, &found::<Brand>(index, group, Blank::new(1)), &objects);
}

/// Fails where a telegram acts otherwise by the index than by the tables.
fn assert_acts_alike(
    rt: &impl Abort,
    alloc: Global,
    index: &TableIndex,
    tables: Tables<'_>,
    raw: u16,
    service: &GroupService,
) -> Result<(), Fail> {
    let by_tables = acts_on(alloc, tables, raw, service).ok().ok_or("memory")?;
    let by_index = index.acts(tables.objs, GroupAddr { raw }, service);
    assert_same(rt, &by_index.written, &by_tables.written);
    assert_eq!(rt; by_index.answers, by_tables.answers, "{raw} {service:?}");
    Ok(())
}

/// The index of the tables.
fn index_of(alloc: Global, tables: Tables<'_>) -> Result<TableIndex, NoMemory> {
    let mut index = TableIndex::room(alloc)?;
    if tables.assoc.len() <= MOST_OCTETS {
        index.fill(tables.addr, tables.assoc);
    }
    Ok(index)
}

/// Fails where the index says otherwise than the tables of the groups up to a raw value.
fn assert_alike(rt: &impl Abort, alloc: Global, tables: Tables<'_>, last: u16) -> Result<(), Fail> {
    let index = index_of(alloc, tables).ok().ok_or("memory")?;
    let write = GroupService::Write(short());
    let response = GroupService::Response(long(1));
    for raw in 0..=last {
        assert_links(rt, &index, tables, raw);
        assert_acts_alike(rt, alloc, &index, tables, raw, &write)?;
        assert_acts_alike(rt, alloc, &index, tables, raw, &response)?;
        assert_acts_alike(rt, alloc, &index, tables, raw, &GroupService::Read)?;
    }
    Ok(())
}

/// The addresses 0/0/2 and twice 0/0/1. By the third place and by the first the object 1 is linked.
const FALLING: Tables<'static> = Tables {
    addr: b"\x00\x03\x00\x02\x00\x01\x00\x01",
    assoc: b"\x00\x02\x00\x03\x00\x01\x00\x01\x00\x01",
    objs: b"\x00\x01\xFF\x00",
};

#[test]
fn addresses_that_do_not_ascend(rt: HostRuntime) -> Result<(), Fail> {
    let read = GroupService::Read;
    assert_acts(&rt, rt.alloc(), FALLING, 0x0001, &read, &[], Some(1))?;
    assert_acts(&rt, rt.alloc(), FALLING, 0x0002, &read, &[], Some(1))?;
    assert_alike(&rt, rt.alloc(), FALLING, 3)
}

/// How many addresses and pairs the large tables have.
const ADDRESSES: u16 = 900;

const PAIRS: u16 = 2047;

fn push_number(table: &mut Vec<u8>, n: u16) -> Result<(), AllocError> {
    table.extend_from_slice(&n.to_be_bytes())
}

/// Addresses below 97, in no order.
fn scattered_addresses(alloc: Global) -> Result<Vec<u8>, AllocError> {
    let mut table = Vec::new(alloc);
    push_number(&mut table, ADDRESSES)?;
    for i in 0..u32::from(ADDRESSES) {
        push_number(&mut table, (i * 7877 % 97) as u16)?;
    }
    Ok(table)
}

/// Pairs of places and objects in no order, some of which no table has.
fn scattered_pairs(alloc: Global) -> Result<Vec<u8>, AllocError> {
    let mut table = Vec::new(alloc);
    push_number(&mut table, PAIRS)?;
    for i in 0..u32::from(PAIRS) {
        push_number(&mut table, (i * 104729 % 907) as u16)?;
        push_number(&mut table, (i * 7919 % 263) as u16)?;
    }
    Ok(table)
}

/// The objects 1 to 255 of all flags and of the size codes 0 to 15.
fn many_objects(alloc: Global) -> Result<Vec<u8>, AllocError> {
    let mut table = Vec::new(alloc);
    push_number(&mut table, 255)?;
    for i in 0..255u16 {
        push_number(&mut table, 0xFF00 | i % 16)?;
    }
    Ok(table)
}

#[test]
fn large_tables(rt: HostRuntime) -> Result<(), Fail> {
    let addr = scattered_addresses(rt.alloc())?;
    let assoc = scattered_pairs(rt.alloc())?;
    let objs = many_objects(rt.alloc())?;
    let tables = Tables {
        addr: addr.as_slice(),
        assoc: assoc.as_slice(),
        objs: objs.as_slice(),
    };
    assert_alike(&rt, rt.alloc(), tables, 100)
}
