//! Searches over a link of fixed data.

ghost use Rattle.std.specs.Prelude.{◌≤◌, length};

use discovery::{About, Families, FindFrame, IndAddr, Inquiry, encode, encode_response};
use discovery_ends::find;
use line_fixed::{FixedLink, Item, List, NoMemory, Octets};
use std::alloc::Global;
use std::test::Fail;

/// A gateway in a search or a description of `knx`.
pub fn gateway() -> About
    ensures { length result.families ≤ 64 }
{
    let mut name = [0; 30];
    name[0] = b'k';
    name[1] = b'n';
    name[2] = b'x';
    About {
        medium: 0x02,
        status: 0x00,
        address: IndAddr { raw: 0x11FF },
        project: 0,
        serial: [0, 0, 0, 0, 0, 1],
        multicast: [0xE0, 0x00, 0x17, 0x0C],
        mac: [0, 0, 0, 0, 0, 1],
        name,
        families: Families::from_slice(&[(2, 1), (3, 1), (4, 1)]),
    }
}

/// A link that gives these datagrams, of which the calls with these numbers fail.
fn link_of(alloc: Global, rows: &[&[u8]], fails: &[u64]) -> Result<FixedLink, NoMemory> {
    let mut gives = List::new(alloc);
    for octets in rows {
        gives.push(Octets::from_slice(alloc, *octets)?)?;
    }
    let fails = List::from_vec(Vec::from_slice(alloc, fails)?);
    Ok(FixedLink::new(alloc, gives, None, fails))
}

/// How many datagrams were sent, each of them this one; None where another was sent.
fn sendings(link: &FixedLink, request: &[u8]) -> Option<u64> {
    let mut count = 0u64;
    for stretch in link.entries.stretches() {
        if let Item::Put(octets) = &stretch.what {
            if octets.as_slice() != request {
                return None;
            }
            count = count.saturating_add(1).saturating_add(stretch.more);
        }
    }
    Some(count)
}

#[test]
fn a_gateway_that_answers_twice_is_found_once(rt: HostRuntime) -> Result<(), Fail> {
    let response = encode_response(Inquiry::Search, &gateway());
    assert_eq!(rt; response.as_slice().len(), 76);
    let rows = [response.as_slice(), response.as_slice()];
    let mut link = link_of(rt.alloc(), &rows, &[])?;
    let findings = find(rt.alloc(), &mut link, Inquiry::Search)?;
    assert!(rt; findings.ended.is_ok());
    assert_eq!(rt; findings.finder.found().len(), 1);
    let request = encode(&FindFrame::SearchRequest);
    assert_eq!(rt; sendings(&link, request.as_slice()), Some(1));
    Ok(())
}

#[test]
fn where_it_is_quiet_the_request_is_sent_twice(rt: HostRuntime) -> Result<(), Fail> {
    let mut link = link_of(rt.alloc(), &[], &[])?;
    let findings = find(rt.alloc(), &mut link, Inquiry::Description)?;
    assert!(rt; findings.ended.is_ok());
    assert!(rt; findings.finder.found().is_empty());
    let request = encode(&FindFrame::DescriptionRequest);
    assert_eq!(rt; sendings(&link, request.as_slice()), Some(2));
    Ok(())
}

#[test]
fn what_was_found_stays_where_the_link_fails(rt: HostRuntime) -> Result<(), Fail> {
    let response = encode_response(Inquiry::Description, &gateway());
    let rows = [response.as_slice()];
    let mut link = link_of(rt.alloc(), &rows, &[3])?;
    let findings = find(rt.alloc(), &mut link, Inquiry::Description)?;
    assert!(rt; findings.ended.is_err());
    assert_eq!(rt; findings.finder.found().len(), 1);
    Ok(())
}
