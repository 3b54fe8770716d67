//! Over fixed datagrams: what is dropped of those that come, and what is sent next.

use super::{JobKind, group_turns, jobs_of};
use knx_model::{List, NoMemory, Octets};
use line_fixed::{FixedLink, FixedWatcher, Item};
use line_model::Open;
use shared_hub::commission;
use std::alloc::Global;
use std::process::Abort;
use std::sync::Wait;
use std::test::Fail;
use std::thread::Threads;

/// The channel 1 is open, and its tunnel is 1.1.255.
const CONNECTED: [u8; 20] = [
    0x06, 0x10, 0x02, 0x06, 0x00, 0x14, 0x01, 0x00, 0x08, 0x01, 0x00, 0x00, 0x00, 0x00, 0x00, 0x00,
    0x04, 0x04, 0x11, 0xFF,
];

/// The client's first request: a T_Connect to the device.
const REQUEST: [u8; 20] = [
    0x06, 0x10, 0x04, 0x20, 0x00, 0x14, 0x04, 0x01, 0x00, 0x00, 0x11, 0x00, 0xBC, 0x60, 0x00, 0x00,
    0x11, 0x05, 0x00, 0x80,
];

/// A datagram that comes in the channel 1 where the gateway's first request is expected and the client's first one isn't acknowledged; and what is
/// sent next, at how many milliseconds.
#[derive(Drop)]
struct Row {
    name: &'static str,
    got: &'static [u8],
    dropped: u64,
    sent: &'static [u8],
    at: u64,
}

/// A datagram that is dropped, so that the request is repeated when its wait has passed.
fn dropped(name: &'static str, got: &'static [u8]) -> Row {
    Row {
        name,
        got,
        dropped: 1,
        sent: &REQUEST,
        at: 1_000,
    }
}

/// What is sent first after this datagram was got, and when.
fn sent_after<'a>(link: &'a FixedLink, datagram: &[u8]) -> Option<(&'a [u8], u64)> {
    let mut got = false;
    for stretch in link.entries.stretches() {
        match &stretch.what {
            Item::Got(octets) if octets.as_slice() == datagram => got = true,
            Item::Put(octets) if got => return Some((octets.as_slice(), stretch.now)),
            _ => {}
        }
    }
    None
}

fn drive<R: Abort + Threads + Wait + Sync>(
    rt: &R,
    alloc: Global,
    row: &Row,
) -> Result<(), NoMemory> {
    let jobs = jobs_of(alloc, &[JobKind::Load])?;
    assert!(rt; jobs.len() < 100);
    let groups = group_turns(alloc, &[])?;
    let mut gives = List::new(alloc);
    gives.push(Octets::from_slice(alloc, &CONNECTED)?)?;
    gives.push(Octets::from_slice(alloc, row.got)?)?;
    let link = FixedLink::new(alloc, gives, None, List::new(alloc));
    let nobody: Option<FixedWatcher> = None;
    let (link, report, _) = commission(rt, alloc, jobs, groups, link, 1, &Open, nobody);
    assert_eq!(rt; report.dropped, row.dropped, "{}", row.name);
    let sent = sent_after(&link, row.got);
    assert!(rt; sent == Some((row.sent, row.at)), "{}", row.name);
    Ok(())
}

/// Dropped or not, a datagram of the present channel that asks for an answer is answered at once; after any other the request is repeated.
#[test]
fn some_are_dropped(rt: HostRuntime) -> Result<(), Fail> {
    let rows = [
        dropped("no header", &[0x00]),
        dropped(
            "a service that isn't read",
            &[
                0x06, 0x10, 0x02, 0x01, 0x00, 0x0E, 0x08, 0x01, 0x00, 0x00, 0x00, 0x00, 0x00, 0x00,
            ],
        ),
        dropped(
            "another length",
            &[
                0x06, 0x10, 0x04, 0x20, 0x00, 0x16, 0x04, 0x01, 0x00, 0x00, 0x29, 0x00, 0xBC, 0xE0,
                0x00, 0x00, 0x0A, 0x03, 0x01, 0x00, 0x81,
            ],
        ),
        dropped(
            "no whole body",
            &[0x06, 0x10, 0x04, 0x20, 0x00, 0x09, 0x04, 0x01, 0x00],
        ),
        dropped(
            "a connect request",
            &[
                0x06, 0x10, 0x02, 0x05, 0x00, 0x1A, 0x08, 0x01, 0x00, 0x00, 0x00, 0x00, 0x00, 0x00,
                0x08, 0x01, 0x00, 0x00, 0x00, 0x00, 0x00, 0x00, 0x04, 0x04, 0x02, 0x00,
            ],
        ),
        dropped(
            "a connection state request",
            &[
                0x06, 0x10, 0x02, 0x07, 0x00, 0x10, 0x01, 0x00, 0x08, 0x01, 0x00, 0x00, 0x00, 0x00,
                0x00, 0x00,
            ],
        ),
        dropped(
            "a second connect response",
            &[
                0x06, 0x10, 0x02, 0x06, 0x00, 0x14, 0x02, 0x00, 0x08, 0x01, 0x00, 0x00, 0x00, 0x00,
                0x00, 0x00, 0x04, 0x04, 0x11, 0xFF,
            ],
        ),
        dropped(
            "a connection state response that isn't awaited",
            &[0x06, 0x10, 0x02, 0x08, 0x00, 0x08, 0x01, 0x00],
        ),
        dropped(
            "a disconnect request of another channel",
            &[
                0x06, 0x10, 0x02, 0x09, 0x00, 0x10, 0x02, 0x00, 0x08, 0x01, 0x00, 0x00, 0x00, 0x00,
                0x00, 0x00,
            ],
        ),
        dropped(
            "a disconnect response that isn't awaited",
            &[0x06, 0x10, 0x02, 0x0A, 0x00, 0x08, 0x01, 0x00],
        ),
        dropped(
            "a request of another channel",
            &[
                0x06, 0x10, 0x04, 0x20, 0x00, 0x15, 0x04, 0x02, 0x00, 0x00, 0x29, 0x00, 0xBC, 0xE0,
                0x00, 0x00, 0x0A, 0x03, 0x01, 0x00, 0x81,
            ],
        ),
        dropped(
            "a request with another number",
            &[
                0x06, 0x10, 0x04, 0x20, 0x00, 0x15, 0x04, 0x01, 0x05, 0x00, 0x29, 0x00, 0xBC, 0xE0,
                0x00, 0x00, 0x0A, 0x03, 0x01, 0x00, 0x81,
            ],
        ),
        Row {
            name: "a request with a frame that doesn't read",
            got: &[
                0x06, 0x10, 0x04, 0x20, 0x00, 0x0B, 0x04, 0x01, 0x00, 0x00, 0x29,
            ],
            dropped: 1,
            sent: &[0x06, 0x10, 0x04, 0x21, 0x00, 0x0A, 0x04, 0x01, 0x00, 0x00],
            at: 0,
        },
        dropped(
            "an acknowledgement of another number",
            &[0x06, 0x10, 0x04, 0x21, 0x00, 0x0A, 0x04, 0x01, 0x07, 0x00],
        ),
        dropped(
            "an acknowledgement with a status",
            &[0x06, 0x10, 0x04, 0x21, 0x00, 0x0A, 0x04, 0x01, 0x00, 0x24],
        ),
        Row {
            name: "a request with the number before isn't dropped",
            got: &[
                0x06, 0x10, 0x04, 0x20, 0x00, 0x15, 0x04, 0x01, 0xFF, 0x00, 0x29, 0x00, 0xBC, 0xE0,
                0x00, 0x00, 0x0A, 0x03, 0x01, 0x00, 0x81,
            ],
            dropped: 0,
            sent: &[0x06, 0x10, 0x04, 0x21, 0x00, 0x0A, 0x04, 0x01, 0xFF, 0x00],
            at: 0,
        },
        Row {
            name: "a device's frame to another address than the tunnel's isn't dropped",
            got: &[
                0x06, 0x10, 0x04, 0x20, 0x00, 0x14, 0x04, 0x01, 0x00, 0x00, 0x29, 0x00, 0xBC, 0x60,
                0x11, 0x05, 0x11, 0xFE, 0x00, 0x81,
            ],
            dropped: 0,
            sent: &[0x06, 0x10, 0x04, 0x21, 0x00, 0x0A, 0x04, 0x01, 0x00, 0x00],
            at: 0,
        },
        Row {
            name: "a disconnect request isn't dropped",
            got: &[
                0x06, 0x10, 0x02, 0x09, 0x00, 0x10, 0x01, 0x00, 0x08, 0x01, 0x00, 0x00, 0x00, 0x00,
                0x00, 0x00,
            ],
            dropped: 0,
            sent: &[0x06, 0x10, 0x02, 0x0A, 0x00, 0x08, 0x01, 0x00],
            at: 0,
        },
    ];
    for row in &rows {
        drive(&rt, rt.alloc(), row)?;
    }
    Ok(())
}
