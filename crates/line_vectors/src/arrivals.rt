//! What arrives of the datagrams of one sender.

use network_sim::{NoMemory, Reach, Sendings};
use std::alloc::Global;
use std::test::Fail;

const FIRST: [u8; 2] = [0x06, 0x10];

const CLIENT: u64 = 7;

const LEFT: u64 = 6;

/// What becomes of the first datagram, before the others are sent.
#[derive(Clone, Copy, Drop)]
enum First {
    Waits,
    IsDelivered,
    IsDeliveredTwice,
    IsLost,
}

/// A first datagram to an endpoint, and so many others to the client; then what is looked at while so many channels are made, and what is
/// seen: the number of the one that is delivered next, and whether the first may be delivered once more.
#[derive(Clone, Copy, Drop)]
struct Row {
    to: u64,
    first: First,
    others: u32,
    made: u64,
    next: Option<u64>,
    again: bool,
}

const fn to_client(first: First, others: u32, next: Option<u64>, again: bool) -> Row {
    Row {
        to: CLIENT,
        first,
        others,
        made: 0,
        next,
        again,
    }
}

fn deliver_next(sent: &mut Sendings) {
    if let Some(age) = sent.next(Reach::Every, 0) {
        sent.deliver(age);
    }
}

fn deliver_again(sent: &mut Sendings) {
    if sent.may_go_again(1, Reach::Every, 0) {
        if let Some(age) = sent.age_of(1) {
            sent.deliver(age);
        }
    }
}

fn become_of(sent: &mut Sendings, first: First) {
    match first {
        First::Waits => {}
        First::IsDelivered => deliver_next(sent),
        First::IsDeliveredTwice => {
            deliver_next(sent);
            deliver_again(sent);
        }
        First::IsLost => {
            if let Some(age) = sent.next(Reach::Every, 0) {
                sent.lose(age);
            }
        }
    }
}

fn seen(alloc: Global, row: &Row) -> Result<(Option<u64>, bool), NoMemory> {
    let reach = Reach::To(CLIENT);
    let mut sent = Sendings::new(alloc)?;
    sent.push(&FIRST, row.to, 0);
    become_of(&mut sent, row.first);
    for _ in 0..row.others {
        sent.push(&[], CLIENT, 0);
    }
    let next = match sent.next(reach, row.made) {
        Some(age) => Some(sent.number_of(age)),
        None => None,
    };
    Ok((next, sent.may_go_again(1, reach, row.made)))
}

#[test]
fn datagrams_arrive(rt: HostRuntime) -> Result<(), Fail> {
    let rows = [
        to_client(First::Waits, 127, Some(1), false),
        to_client(First::Waits, 128, Some(2), false),
        to_client(First::Waits, 130, Some(4), false),
        to_client(First::IsDelivered, 0, None, true),
        to_client(First::IsDelivered, 127, Some(2), true),
        to_client(First::IsDelivered, 128, Some(2), false),
        to_client(First::IsDeliveredTwice, 0, None, false),
        to_client(First::IsLost, 0, None, false),
        to_client(First::IsLost, 3, Some(2), false),
        Row {
            to: LEFT,
            ..to_client(First::Waits, 0, None, false)
        },
        Row {
            to: LEFT,
            ..to_client(First::Waits, 2, Some(2), false)
        },
        Row {
            made: 254,
            ..to_client(First::Waits, 0, Some(1), false)
        },
        Row {
            made: 255,
            ..to_client(First::Waits, 0, None, false)
        },
        Row {
            made: 255,
            ..to_client(First::IsDelivered, 0, None, false)
        },
    ];
    for row in &rows {
        let (next, again) = seen(rt.alloc(), row)?;
        assert_eq!(rt; next, row.next);
        assert_eq!(rt; again, row.again);
    }
    Ok(())
}
