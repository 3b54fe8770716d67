//! An address is given on a simulated bus: what comes of it, and what the units have then.

use address_commission::{AssignFault, Assigned, assign};
use address_sim::AddressBus;
use address_text::{UnitScript, read_units};
use address_world::{IndAddr, Unit};
use std::alloc::{AllocError, Global};

/// A bus, the address that is wanted on it, what comes of it, and the addresses that the units have then.
struct Row {
    text: &'static [u8],
    wanted: u16,
    ends: Assigned,
    addresses: &'static [u16],
}

const NONE: u16 = 0xFFFF;

const SEVERAL: Assigned = Assigned::Several {
    first: IndAddr { raw: NONE },
    second: IndAddr { raw: NONE },
};

const ROWS: [Row; 14] = [
    Row {
        text: b"unit 15.15.255 prog\nunit 1.1.7 off\n",
        wanted: 0x1114,
        ends: Assigned::Done,
        addresses: &[0x1114, 0x1107],
    },
    Row {
        text: b"unit 15.15.255 prog\nunit 1.1.7 off\n",
        wanted: 0x1107,
        ends: Assigned::Taken,
        addresses: &[NONE, 0x1107],
    },
    Row {
        text: b"unit 15.15.255 prog\nunit 15.15.255 prog\n",
        wanted: 0x1114,
        ends: SEVERAL,
        addresses: &[NONE, NONE],
    },
    // The one in programming mode has the address already.
    Row {
        text: b"unit 1.1.20 prog\nunit 1.1.7 off\n",
        wanted: 0x1114,
        ends: Assigned::Done,
        addresses: &[0x1114, 0x1107],
    },
    Row {
        text: b"unit 1.1.7 off\n",
        wanted: 0x1114,
        ends: Assigned::NoUnit,
        addresses: &[0x1107],
    },
    Row {
        text: b"",
        wanted: 0x1114,
        ends: Assigned::NoUnit,
        addresses: &[],
    },
    // The third reading is answered.
    Row {
        text: b"unit 15.15.255 prog\nlose read 1 1\nlose answer 1 1\n",
        wanted: 0x1114,
        ends: Assigned::Done,
        addresses: &[0x1114],
    },
    // None is.
    Row {
        text: b"unit 15.15.255 prog\nlose read 1 1\nlose read 1 2\nlose read 1 3\n",
        wanted: 0x1114,
        ends: Assigned::NoUnit,
        addresses: &[NONE],
    },
    Row {
        text: b"unit 15.15.255 prog\nlose answer 1 1\nlose answer 1 2\nlose answer 1 3\n",
        wanted: 0x1114,
        ends: Assigned::NoUnit,
        addresses: &[NONE],
    },
    // The write is lost.
    Row {
        text: b"unit 15.15.255 prog\nlose read 1 2\n",
        wanted: 0x1114,
        ends: Assigned::Unconfirmed,
        addresses: &[NONE],
    },
    // The reading after the write is lost, or its response.
    Row {
        text: b"unit 15.15.255 prog\nlose read 1 3\n",
        wanted: 0x1114,
        ends: Assigned::Unconfirmed,
        addresses: &[0x1114],
    },
    Row {
        text: b"unit 15.15.255 prog\nlose answer 1 2\n",
        wanted: 0x1114,
        ends: Assigned::Unconfirmed,
        addresses: &[0x1114],
    },
    // One of two is never heard: two units seem one.
    Row {
        text: b"unit 15.15.255 prog\nunit 1.1.7 prog\nlose answer 2 1\nlose answer 2 2\n",
        wanted: 0x1114,
        ends: Assigned::Done,
        addresses: &[0x1114, 0x1114],
    },
    // The second one is heard after the write.
    Row {
        text: b"unit 15.15.255 prog\nunit 1.1.7 prog\nlose answer 2 1\n",
        wanted: 0x1114,
        ends: Assigned::Unconfirmed,
        addresses: &[0x1114, 0x1114],
    },
];

/// Whether the units have these addresses, one after another.
fn have(units: &[Unit], addresses: &[u16]) -> bool {
    units.len() == addresses.len()
        && units
            .iter()
            .zip(addresses)
            .all(|(unit, address)| unit.address.raw == *address)
}

#[test]
fn an_address_is_given_to_the_one_unit_in_programming_mode(rt: HostRuntime) {
    for row in &ROWS {
        let Ok(text) = read_units(rt.alloc(), row.text) else {
            panic!(rt; "the text is refused");
        };
        let mut bus = AddressBus::empty(rt.alloc());
        let loaded = bus.load(IndAddr { raw: 0x11FF }, &text);
        assert!(rt; loaded.is_ok());
        let wanted = IndAddr { raw: row.wanted };
        let (bus, ends) = assign(&rt, bus, wanted);
        assert!(rt; matches!(ends, Ok(assigned) if assigned == row.ends));
        assert!(rt; have(bus.units(), row.addresses));
    }
}

/// 254 units that are off, and one in programming mode.
fn text_of_255(alloc: Global) -> Result<Vec<u8>, AllocError> {
    let mut text = Vec::new(alloc);
    for _ in 0..254usize {
        text.extend_from_slice(b"unit 15.15.255 off\n")?;
    }
    text.extend_from_slice(b"unit 15.15.255 prog\n")?;
    Ok(text)
}

#[test]
fn the_last_of_255_units_gets_it(rt: HostRuntime) -> Result<(), AllocError> {
    let text = text_of_255(rt.alloc())?;
    let Ok(script) = read_units(rt.alloc(), text.as_slice()) else {
        panic!(rt; "the text is refused");
    };
    let mut bus = AddressBus::empty(rt.alloc());
    let loaded = bus.load(IndAddr { raw: 0x11FF }, &script);
    assert!(rt; loaded.is_ok());
    let (bus, ends) = assign(&rt, bus, IndAddr { raw: 0x1114 });
    assert!(rt; matches!(ends, Ok(Assigned::Done)));
    assert!(rt;
        bus.units()
            .iter()
            .last()
            .is_some_and(|unit| unit.address.raw == 0x1114)
    );
    Ok(())
}
