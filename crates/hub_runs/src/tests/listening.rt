//! What is heard in a run, where more comes than the queue has places.

use super::{Telegram, group_turns};
use knx_model::{List, NoMemory, Octets};
use line_fixed::{FixedLink, FixedWatcher};
use line_model::Open;
use shared_hub::commission;
use std::alloc::Global;
use std::test::Fail;

/// So many group telegrams come.
const MANY: u16 = 5_000;

/// The channel 1 is open, and its tunnel is 1.1.255.
const CONNECTED: [u8; 20] = [
    0x06, 0x10, 0x02, 0x06, 0x00, 0x14, 0x01, 0x00, 0x08, 0x01, 0x00, 0x00, 0x00, 0x00, 0x00, 0x00,
    0x04, 0x04, 0x11, 0xFF,
];

/// The sender of the telegram with this number.
fn sender(number: u16) -> u16 {
    0x1101 + number % 0xFD
}

/// The gateway's request with the telegram of this number, from 0: a write of 1 to 1/2/3.
fn request(alloc: Global, number: u16) -> Result<Octets, NoMemory> {
    let [line, device] = sender(number).to_be_bytes();
    let count = (number % 256) as u8;
    Octets::from_slice(
        alloc,
        &[
            0x06, 0x10, 0x04, 0x20, 0x00, 0x15, 0x04, 0x01, count, 0x00, 0x29, 0x00, 0xBC, 0xE0,
            line, device, 0x0A, 0x03, 0x01, 0x00, 0x81,
        ],
    )
}

/// Who listens takes them out of the queue between two polls.
#[test]
fn none_is_missed_while_there_is_memory(rt: HostRuntime) -> Result<(), Fail> {
    let alloc = rt.alloc();
    let mut gives = List::new(alloc);
    gives.push(Octets::from_slice(alloc, &CONNECTED)?)?;
    for number in 0..MANY {
        gives.push(request(alloc, number)?)?;
    }
    let groups = group_turns(alloc, &[Telegram::Write])?;
    let link = FixedLink::new(alloc, gives, None, List::new(alloc));
    let nobody: Option<FixedWatcher> = None;
    let jobs = List::new(alloc);
    let (_link, report, _) = commission(&rt, alloc, jobs, groups, link, 1, &Open, nobody);
    assert!(rt; report.fault.is_none());
    assert_eq!(rt; report.missed, 0);
    assert_eq!(rt; report.heard.len(), MANY as usize);
    let mut number = 0;
    for heard in report.heard.as_slice() {
        assert!(rt; number < MANY);
        assert_eq!(rt; heard.from.raw, sender(number));
        number += 1;
    }
    Ok(())
}
