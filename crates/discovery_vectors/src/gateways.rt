//! A gateway that answers at a port of fixed data.

ghost use Rattle.std.specs.Prelude.{◌≡◌, [], IfOk};

use crate::searches::gateway;
use discovery::{Datagram, FindFrame, Inquiry, encode, encode_response};
use discovery_ends::{Answerer, NOWHERE};
use line_fixed::{FixedPort, List, NoMemory, Octets, Port, PortItem, PortPolled};
use std::alloc::Global;
use std::test::Fail;

/// A port that gives a search request, a description request and another datagram, each of a client of its own; the calls with these numbers fail.
fn port_of(alloc: Global, fails: &[u64]) -> Result<FixedPort, NoMemory>
    ensures { IfOk result (λ port. port.items ≡ []) }
{
    let mut gives = List::new(alloc);
    let search = encode(&FindFrame::SearchRequest);
    gives.push((7, Octets::from_slice(alloc, search.as_slice())?))?;
    let description = encode(&FindFrame::DescriptionRequest);
    gives.push((8, Octets::from_slice(alloc, description.as_slice())?))?;
    gives.push((9, Octets::from_slice(alloc, &[0x06, 0x10])?))?;
    let fails = List::from_vec(Vec::from_slice(alloc, fails)?);
    Ok(FixedPort::new(alloc, gives, fails))
}

/// Whether this was given to a client.
fn is_given(item: Option<&PortItem>, client: u32, answer: &Datagram) -> bool {
    match item {
        Some(PortItem::Gave { to, octets }) => {
            *to == client && octets.as_slice() == answer.as_slice()
        }
        _ => false,
    }
}

#[test]
fn requests_are_answered_and_all_else_is_passed_on(rt: HostRuntime) -> Result<(), Fail> {
    let mut door = Answerer::new(port_of(rt.alloc(), &[])?, NOWHERE, gateway());
    let mut into = [0; 512];
    assert_eq!(rt;
        door.take(&mut into, 100).ok(),
        Some(PortPolled::Got { len: 0, from: 7 })
    );
    assert_eq!(rt;
        door.take(&mut into, 100).ok(),
        Some(PortPolled::Got { len: 0, from: 8 })
    );
    assert_eq!(rt;
        door.take(&mut into, 100).ok(),
        Some(PortPolled::Got { len: 2, from: 9 })
    );
    assert_eq!(rt; door.take(&mut into, 100).ok(), Some(PortPolled::Quiet));
    assert!(rt; door.give(9, &[1, 2]).is_ok());
    let port = door.back();
    let items = port.items.as_slice();
    assert_eq!(rt; items.len(), 7);
    assert!(rt;
        is_given(
            items.get(1),
            7,
            &encode_response(Inquiry::Search, &gateway())
        )
    );
    assert!(rt;
        is_given(
            items.get(3),
            8,
            &encode_response(Inquiry::Description, &gateway())
        )
    );
    Ok(())
}

#[test]
fn behind_an_answer_that_failed_nothing_is_done(rt: HostRuntime) -> Result<(), Fail> {
    let mut door = Answerer::new(port_of(rt.alloc(), &[2])?, NOWHERE, gateway());
    let mut into = [0; 512];
    assert!(rt; door.take(&mut into, 100).is_err());
    assert!(rt; door.failed().is_some());
    assert!(rt; door.take(&mut into, 100).is_err());
    assert!(rt; door.give(9, &[1]).is_err());
    let port = door.back();
    assert_eq!(rt; port.items.as_slice().len(), 1);
    assert_eq!(rt; (port.calls, port.faults), (2, 1));
    Ok(())
}

/// The octets that were given.
fn given_in(item: Option<&PortItem>) -> Option<&[u8]> {
    match item {
        Some(PortItem::Gave { to: _, octets }) => Some(octets.as_slice()),
        _ => None,
    }
}

/// A connect response, and one that refuses.
const CONNECTED: [u8; 20] = [
    0x06, 0x10, 0x02, 0x06, 0x00, 0x14, 0x01, 0x00, 0x08, 0x01, 0x00, 0x00, 0x00, 0x00, 0x00, 0x00,
    0x04, 0x04, 0x11, 0xFF,
];

const REFUSED: [u8; 8] = [0x06, 0x10, 0x02, 0x06, 0x00, 0x08, 0x00, 0x24];

#[test]
fn the_endpoint_that_is_bound_is_named(rt: HostRuntime) -> Result<(), Fail> {
    let own = [192, 168, 1, 2, 0x0E, 0x57];
    let mut door = Answerer::new(port_of(rt.alloc(), &[])?, own, gateway());
    let mut into = [0; 512];
    assert!(rt; door.take(&mut into, 100).is_ok());
    assert!(rt; door.take(&mut into, 100).is_ok());
    assert!(rt; door.give(9, &CONNECTED).is_ok());
    assert!(rt; door.give(9, &REFUSED).is_ok());
    let port = door.back();
    let items = port.items.as_slice();
    let found = given_in(items.get(1)).ok_or("no search response")?;
    assert!(rt;
        found.starts_with(&[
            0x06, 0x10, 0x02, 0x02, 0x00, 0x4C, 0x08, 0x01, 192, 168, 1, 2, 0x0E, 0x57
        ])
    );
    let described = encode_response(Inquiry::Description, &gateway());
    assert!(rt; is_given(items.get(3), 8, &described));
    let connected = given_in(items.get(4)).ok_or("no connect response")?;
    assert!(rt;
        connected.starts_with(&[
            0x06, 0x10, 0x02, 0x06, 0x00, 0x14, 0x01, 0x00, 0x08, 0x01, 192, 168, 1, 2, 0x0E, 0x57,
            0x04, 0x04, 0x11, 0xFF
        ])
    );
    let refused = given_in(items.get(5)).ok_or("no refusal")?;
    assert_eq!(rt; refused, REFUSED.as_slice());
    Ok(())
}
