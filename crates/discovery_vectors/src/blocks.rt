//! Responses (ISO 22510, Core), block by block.

use discovery::{FindFrame, Finder, Inquiry, decode};
use std::alloc::{AllocError, Global};
use std::test::Fail;

/// A search response of a router, with an endpoint and five service families.
const ROUTER: [u8; 80] = [
    0x06, 0x10, 0x02, 0x02, 0x00, 0x50, 0x08, 0x01, 0xC0, 0xA8, 0x2A, 0x0A, 0x0E, 0x57, 0x36, 0x01,
    0x02, 0x00, 0x11, 0x00, 0x00, 0x00, 0x11, 0x22, 0x33, 0x44, 0x55, 0x66, 0xE0, 0x00, 0x17, 0x0C,
    0x01, 0x02, 0x03, 0x04, 0x05, 0x06, 0x47, 0x69, 0x72, 0x61, 0x20, 0x4B, 0x4E, 0x58, 0x2F, 0x49,
    0x50, 0x2D, 0x52, 0x6F, 0x75, 0x74, 0x65, 0x72, 0x00, 0x00, 0x00, 0x00, 0x00, 0x00, 0x00, 0x00,
    0x00, 0x00, 0x00, 0x00, 0x0C, 0x02, 0x02, 0x01, 0x03, 0x02, 0x04, 0x01, 0x05, 0x01, 0x07, 0x01,
];

/// The device information of a gateway.
const INFORMATION: [u8; 54] = [
    0x36, 0x01, 0x02, 0x00, 0x11, 0xFF, 0x00, 0x00, 0x00, 0x00, 0x00, 0x00, 0x00, 0x01, 0xE0, 0x00,
    0x17, 0x0C, 0x00, 0x00, 0x00, 0x00, 0x00, 0x01, 0x6B, 0x6E, 0x78, 0x00, 0x00, 0x00, 0x00, 0x00,
    0x00, 0x00, 0x00, 0x00, 0x00, 0x00, 0x00, 0x00, 0x00, 0x00, 0x00, 0x00, 0x00, 0x00, 0x00, 0x00,
    0x00, 0x00, 0x00, 0x00, 0x00, 0x00,
];

/// Its service families.
const FAMILIES: [u8; 8] = [0x08, 0x02, 0x02, 0x01, 0x03, 0x01, 0x04, 0x01];

/// Service families of which the last has no version.
const ODD: [u8; 5] = [0x05, 0x02, 0x02, 0x01, 0x03];

/// A block of a type that is skipped.
const OTHER: [u8; 4] = [0x04, 0xFE, 0x01, 0x02];

/// A block of the type of the device information and another length, which is skipped too.
const SHORT: [u8; 4] = [0x04, 0x01, 0x02, 0x00];

/// What is no block: a length that doesn't count itself and the type.
const ONE: [u8; 2] = [0x01, 0x02];

/// A block that is cut off.
const CUT: [u8; 3] = [0x08, 0x02, 0x02];

/// A description response with these blocks.
fn response(alloc: Global, blocks: &[&[u8]]) -> Result<Vec<u8>, AllocError> {
    let mut body = Vec::new(alloc);
    for block in blocks {
        body.extend_from_slice(*block)?;
    }
    let total = u16::try_from(body.len().saturating_add(6)).unwrap_or(0);
    let mut octets = Vec::new(alloc);
    octets.extend_from_slice(&[0x06, 0x10, 0x02, 0x04])?;
    octets.extend_from_slice(&total.to_be_bytes())?;
    octets.extend_from_slice(body.as_slice())?;
    Ok(octets)
}

/// The number of the rule that octets break; 0 where they are a frame.
fn refusal(octets: &[u8]) -> u8 {
    match decode(octets) {
        Ok(_) => 0,
        Err(why) => why.number(),
    }
}

#[test]
fn each_block_counts_once(rt: HostRuntime) -> Result<(), Fail> {
    let rows: [(&[&[u8]], u8); 12] = [
        (&[&INFORMATION, &FAMILIES], 0),
        (&[&FAMILIES, &INFORMATION], 0),
        (&[&OTHER, &INFORMATION, &SHORT, &FAMILIES, &OTHER], 0),
        (&[&FAMILIES], 4),
        (&[&INFORMATION], 4),
        (&[&INFORMATION, &INFORMATION, &FAMILIES], 4),
        (&[&INFORMATION, &FAMILIES, &FAMILIES], 4),
        (&[&INFORMATION, &FAMILIES, &ODD], 4),
        (&[&INFORMATION, &ODD], 4),
        (&[&INFORMATION, &FAMILIES, &ONE], 4),
        (&[&INFORMATION, &FAMILIES, &CUT], 4),
        (&[], 4),
    ];
    for (blocks, wanted) in &rows {
        let octets = response(rt.alloc(), *blocks)?;
        assert_eq!(rt; refusal(octets.as_slice()), *wanted, "of {blocks:?}");
    }
    Ok(())
}

#[test]
fn the_least_rule_that_is_broken_is_told(rt: HostRuntime) {
    let rows: [(&[u8], u8); 6] = [
        (&[0x06, 0x10, 0x02], 1),
        (&[0x06, 0x20, 0x02, 0x01, 0x00, 0x06], 1),
        (&[0x06, 0x10, 0x02, 0x05, 0x00, 0x07], 2),
        (&[0x06, 0x10, 0x02, 0x01, 0x00, 0x07], 3),
        (&[0x06, 0x10, 0x02, 0x01, 0x00, 0x06], 4),
        (&ROUTER, 0),
    ];
    for (octets, wanted) in &rows {
        assert_eq!(rt; refusal(*octets), *wanted, "of {octets:?}");
    }
}

#[test]
fn a_response_tells_of_a_router(rt: HostRuntime) -> Result<(), Fail> {
    let FindFrame::SearchResponse(about) = decode(&ROUTER).ok().ok_or("refused")? else {
        return Err(Fail::from("another frame"));
    };
    assert_eq!(rt;
        (about.medium, about.status, about.address.raw, about.project),
        (0x02, 0, 0x1100, 0)
    );
    assert_eq!(rt; about.serial, [0x11, 0x22, 0x33, 0x44, 0x55, 0x66]);
    assert_eq!(rt; about.multicast, [0xE0, 0x00, 0x17, 0x0C]);
    assert_eq!(rt; about.mac, [0x01, 0x02, 0x03, 0x04, 0x05, 0x06]);
    assert!(rt; about.name.as_slice().starts_with(b"Gira KNX/IP-Router\0"));
    assert_eq!(rt;
        about.families.as_slice(),
        [(2, 1), (3, 2), (4, 1), (5, 1), (7, 1)].as_slice()
    );
    Ok(())
}

#[test]
fn each_is_found_once_and_at_most_sixty_four(rt: HostRuntime) -> Result<(), Fail> {
    let mut finder = Finder::new(rt.alloc(), Inquiry::Search)?;
    for status in 0..65u8 {
        let mut octets = ROUTER;
        octets[17] = status;
        finder.take(&octets);
        finder.take(&octets);
        assert_eq!(rt;
            finder.found().len(),
            (usize::from(status) + 1).min(Finder::MOST)
        );
    }
    let mut other = Finder::new(rt.alloc(), Inquiry::Description)?;
    other.take(&ROUTER);
    assert!(rt; other.found().is_empty());
    Ok(())
}
