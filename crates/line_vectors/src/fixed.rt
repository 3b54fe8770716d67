//! Each call of each type, what fails where it is told to, and where datagrams are cut off.

use line_fixed::{
    Dialer, FailingLink, FixedDialer, FixedLink, FixedPort, Item, Link, List, NoMemory, Octets,
    Polled, Port, PortPolled,
};
use std::alloc::Global;
use std::test::Fail;

/// A call of a link or of a port.
#[derive(Clone, Copy, Drop)]
enum Call {
    Send,
    Renew,
    Poll { wait_ms: u32 },
    Take,
    Give,
}

/// What it answers: of a datagram, how many octets there are, who sent it, and which octet stands at the end of the buffer.
#[derive(Clone, Copy, Drop, PartialEq, Eq)]
enum Answer {
    Done,
    Got { len: usize, from: u32, end: u8 },
    Quiet,
    Fails,
}

const fn got(len: usize, from: u32, end: u8) -> Answer {
    Answer::Got { len, from, end }
}

fn link_answers<L: Link>(link: &mut L, call: Call, into: &mut [u8; 512]) -> Answer {
    match call {
        Call::Send => match link.send(&[1, 2]) {
            Ok(()) => Answer::Done,
            Err(_) => Answer::Fails,
        },
        Call::Poll { wait_ms } => match link.poll(into, wait_ms) {
            Ok(Polled::Got(len)) => got(len, 0, into[511]),
            Ok(Polled::Quiet) => Answer::Quiet,
            Err(_) => Answer::Fails,
        },
        _ => match link.renew() {
            Ok(()) => Answer::Done,
            Err(_) => Answer::Fails,
        },
    }
}

fn port_answers<P: Port>(port: &mut P, call: Call, into: &mut [u8; 512]) -> Answer {
    match call {
        Call::Take => match port.take(into, 100) {
            Ok(PortPolled::Got { len, from }) => got(len, from, into[511]),
            Ok(PortPolled::Quiet) => Answer::Quiet,
            Err(_) => Answer::Fails,
        },
        _ => match port.give(4, &[1]) {
            Ok(()) => Answer::Done,
            Err(_) => Answer::Fails,
        },
    }
}

/// The first call of these that a link answers otherwise.
fn link_differs<L: Link>(link: &mut L, rows: &[(Call, Answer)]) -> Option<usize> {
    let mut into = [0; 512];
    for (at, (call, answer)) in rows.iter().enumerate() {
        if link_answers(link, *call, &mut into) != *answer {
            return Some(at);
        }
    }
    None
}

/// The first call of these that a port answers otherwise.
fn port_differs<P: Port>(port: &mut P, rows: &[(Call, Answer)]) -> Option<usize> {
    let mut into = [0; 512];
    for (at, (call, answer)) in rows.iter().enumerate() {
        if port_answers(port, *call, &mut into) != *answer {
            return Some(at);
        }
    }
    None
}

/// Datagrams of these lengths, the first of ones, the second of twos and so on.
fn datagrams(alloc: Global, lengths: &[usize]) -> Result<List<Octets>, NoMemory> {
    let mut made = List::new(alloc);
    let mut octet = 0u8;
    for length in lengths {
        octet = octet.wrapping_add(1);
        made.push(Octets::from_vec(Vec::from_elem(alloc, octet, *length)?))?;
    }
    Ok(made)
}

/// A link that gives datagrams of these lengths, and then maybe one of one octet for ever.
fn link_of(
    alloc: Global,
    lengths: &[usize],
    last: Option<u8>,
    fails: &[u64],
) -> Result<FixedLink, NoMemory> {
    let last = match last {
        Some(octet) => Some(Octets::from_slice(alloc, &[octet])?),
        None => None,
    };
    let fails = List::from_vec(Vec::from_slice(alloc, fails)?);
    Ok(FixedLink::new(alloc, datagrams(alloc, lengths)?, last, fails))
}

/// A port that gives a datagram of sixes for each of these senders and lengths.
fn port_of(alloc: Global, rows: &[(u32, usize)], fails: &[u64]) -> Result<FixedPort, NoMemory> {
    let mut gives = List::new(alloc);
    for (from, length) in rows {
        let octets = Octets::from_vec(Vec::from_elem(alloc, 6, *length)?);
        gives.push((*from, octets))?;
    }
    let fails = List::from_vec(Vec::from_slice(alloc, fails)?);
    Ok(FixedPort::new(alloc, gives, fails))
}

const fn poll(wait_ms: u32) -> Call {
    Call::Poll { wait_ms }
}

#[test]
fn a_link_gives_its_datagrams_in_order_and_then_the_last_for_ever(
    rt: HostRuntime,
) -> Result<(), Fail> {
    let mut link = link_of(rt.alloc(), &[3, 0, 512, 513, 65_507], Some(9), &[])?;
    let rows = [
        (poll(1000), got(3, 0, 0)),
        (poll(1000), got(0, 0, 0)),
        (poll(1000), got(512, 0, 3)),
        (poll(1000), got(512, 0, 4)),
        (poll(1000), got(512, 0, 5)),
        (poll(1000), got(1, 0, 5)),
        (poll(1000), got(1, 0, 5)),
    ];
    assert_eq!(rt; link_differs(&mut link, &rows), None);
    assert_eq!(rt; link.now(), 0);
    assert_eq!(rt; link.at(), 7);
    Ok(())
}

#[test]
fn a_link_without_datagrams_is_quiet_for_the_whole_wait(rt: HostRuntime) -> Result<(), Fail> {
    let mut link = link_of(rt.alloc(), &[], None, &[])?;
    let rows = [
        (poll(0), Answer::Quiet),
        (poll(100), Answer::Quiet),
        (poll(u32::MAX), Answer::Quiet),
        (Call::Send, Answer::Done),
        (Call::Send, Answer::Done),
        (Call::Renew, Answer::Done),
    ];
    assert_eq!(rt; link_differs(&mut link, &rows), None);
    assert_eq!(rt; link.now(), 4_294_967_395);
    assert_eq!(rt; link.at(), 6);
    // the two sendings are kept as one
    let stretches = link.entries.stretches();
    assert_eq!(rt; stretches.len(), 5);
    assert!(rt; matches!(stretches[3].what, Item::Put(_)));
    assert_eq!(rt; stretches[3].more, 1);
    Ok(())
}

#[test]
fn a_link_fails_where_it_is_told_to_and_from_then_on(rt: HostRuntime) -> Result<(), Fail> {
    let mut link = link_of(rt.alloc(), &[1, 2], None, &[4])?;
    let rows = [
        (Call::Send, Answer::Done),
        (poll(10), got(1, 0, 0)),
        (Call::Renew, Answer::Done),
        (poll(10), Answer::Fails),
        (poll(10), Answer::Fails),
        (Call::Send, Answer::Fails),
        (Call::Renew, Answer::Fails),
    ];
    assert_eq!(rt; link_differs(&mut link, &rows), None);
    assert_eq!(rt; link.now(), 0);
    assert_eq!(rt; link.at(), 3);
    assert_eq!(rt; (link.calls, link.faults.failed), (7, 4));
    Ok(())
}

#[test]
fn from_a_failed_call_on_none_is_passed_on(rt: HostRuntime) -> Result<(), Fail> {
    let rows = [
        (Call::Send, Answer::Done),
        (poll(10), Answer::Fails),
        (poll(10), Answer::Fails),
        (Call::Renew, Answer::Fails),
    ];
    // the second call fails, here and there
    for (fails, fails_at, passed_on) in [(&[] as &[u64], 2, 1), (&[2], 0, 2)] {
        let mut link = FailingLink::new(link_of(rt.alloc(), &[1], None, fails)?, fails_at);
        assert_eq!(rt; link_differs(&mut link, &rows), None);
        assert_eq!(rt; link.faults.failed, 3);
        assert_eq!(rt; link.link.calls, passed_on);
        assert_eq!(rt; link.at(), 1);
    }
    Ok(())
}

#[test]
fn a_port_gives_its_datagrams_and_takes_what_it_is_given(rt: HostRuntime) -> Result<(), Fail> {
    let mut port = port_of(rt.alloc(), &[(4, 512), (5, 513), (4, 0)], &[6])?;
    let rows = [
        (Call::Take, got(512, 4, 6)),
        (Call::Take, got(512, 5, 6)),
        (Call::Take, got(0, 4, 6)),
        (Call::Take, Answer::Quiet),
        (Call::Give, Answer::Done),
        (Call::Give, Answer::Fails),
        (Call::Take, Answer::Fails),
    ];
    assert_eq!(rt; port_differs(&mut port, &rows), None);
    assert_eq!(rt; port.faults, 2);
    assert_eq!(rt; port.items.as_slice().len(), 5);
    Ok(())
}

#[test]
fn a_dialer_hands_each_out_once(rt: HostRuntime) -> Result<(), Fail> {
    let link = FixedLink::new(
        rt.alloc(),
        List::new(rt.alloc()),
        None,
        List::new(rt.alloc()),
    );
    let port = FixedPort::new(rt.alloc(), List::new(rt.alloc()), List::new(rt.alloc()));
    let mut dialer = FixedDialer::new(Some(link), Some(port));
    let mut handed_out = 0u8;
    for _ in 0..2 {
        if let Ok(link) = dialer.dial([192, 168, 1, 9], 3671) {
            handed_out = handed_out.saturating_add(1);
            dialer.hang(link);
        }
        if let Ok(door) = dialer.bind([0, 0, 0, 0], 3671) {
            handed_out = handed_out.saturating_add(1);
            dialer.shut(door);
        }
    }
    assert_eq!(rt; handed_out, 2);
    assert_eq!(rt; dialer.dials(), 4);
    assert_eq!(rt; dialer.counts().failed, 2);
    assert!(rt; dialer.given().is_some_and(|at| at.port == 3671));
    assert!(rt; dialer.link_back().is_some());
    assert!(rt; dialer.port_back().is_some());
    Ok(())
}
