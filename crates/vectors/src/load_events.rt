//! Each load event in each load state.

use LoadState::{Error, Loaded, Loading, Unloaded};
use load_machine::{LoadState, LoadableObject, Loads};
use std::process::Abort;

const NONE: [u8; 10] = [0; 10];

const START: [u8; 10] = [1, 0, 0, 0, 0, 0, 0, 0, 0, 0];

const COMPLETED: [u8; 10] = [2, 0, 0, 0, 0, 0, 0, 0, 0, 0];

const UNLOAD: [u8; 10] = [4, 0, 0, 0, 0, 0, 0, 0, 0, 0];

const OTHER: [u8; 10] = [5, 0, 0, 0, 0, 0, 0, 0, 0, 0];

/// An allocation of four octets.
const FOUR: [u8; 10] = [3, 0x0B, 0, 0, 0, 4, 1, 0xFF, 0, 0];

/// Of all that the group objects have room for, and of one octet more.
const AT_CAPACITY: [u8; 10] = [3, 0x0B, 0, 0, 0x04, 0x00, 1, 0, 0, 0];

const OVER_CAPACITY: [u8; 10] = [3, 0x0B, 0, 0, 0x04, 0x01, 1, 0, 0, 0];

/// Of another kind, with another octet behind the size, and with another end.
const OTHER_KIND: [u8; 10] = [3, 0x0A, 0, 0, 0, 1, 1, 0, 0, 0];

const OTHER_MARK: [u8; 10] = [3, 0x0B, 0, 0, 0, 1, 0, 0, 0, 0];

const OTHER_END: [u8; 10] = [3, 0x0B, 0, 0, 0, 1, 1, 0, 0, 1];

/// The group objects with four octets in their segment, Loaded, Loading and in Error, and with none, Unloaded.
fn in_state(state: LoadState) -> Loads {
    let mut loads = Loads::blank();
    let object = LoadableObject::GroupObjects;
    if state != Unloaded {
        loads.event(object, &START);
        loads.event(object, &FOUR);
    }
    if state == Loaded {
        loads.event(object, &COMPLETED);
    }
    if state == Error {
        loads.event(object, &OTHER);
    }
    loads
}

/// The four states, and the lengths of the segments in them.
const STATES: [LoadState; 4] = [Unloaded, Loaded, Loading, Error];

const LENGTHS: [u16; 4] = [0, 4, 4, 4];

/// Fails where the event doesn't leave these states and lengths of the four states.
fn assert_leaves(rt: &impl Abort, event: &[u8; 10], states: [LoadState; 4], lengths: [u16; 4]) {
    let object = LoadableObject::GroupObjects;
    for at in 0..4 {
        let before = STATES[at];
        let mut loads = in_state(before);
        loads.event(object, event);
        let left = (loads.state(object), loads.segment(object).len);
        assert_eq!(rt; left, (states[at], lengths[at]), "{before:?} at {event:?}");
        assert_eq!(rt; loads.segment(object).base, 0x7000);
        assert_eq!(rt; loads.state(LoadableObject::Application), Unloaded);
    }
}

#[test]
fn each_event_in_each_state(rt: HostRuntime) {
    assert_leaves(&rt, &NONE, STATES, LENGTHS);
    assert_leaves(&rt, &START, [Loading, Loading, Loading, Error], LENGTHS);
    assert_leaves(&rt, &COMPLETED, [Error, Loaded, Loaded, Error], LENGTHS);
    assert_leaves(&rt, &FOUR, [Error, Error, Loading, Error], LENGTHS);
    assert_leaves(&rt, &UNLOAD, [Unloaded; 4], [0; 4]);
    assert_leaves(&rt, &OTHER, [Error; 4], LENGTHS);
}

#[test]
fn allocations_at_and_over_the_capacity_and_ill_formed(rt: HostRuntime) {
    let at_capacity = [0, 4, 0x0400, 4];
    assert_leaves(
        &rt,
        &AT_CAPACITY,
        [Error, Error, Loading, Error],
        at_capacity,
    );
    assert_leaves(&rt, &OVER_CAPACITY, [Error; 4], LENGTHS);
    assert_leaves(&rt, &OTHER_KIND, [Error; 4], LENGTHS);
    assert_leaves(&rt, &OTHER_MARK, [Error; 4], LENGTHS);
    assert_leaves(&rt, &OTHER_END, [Error; 4], LENGTHS);
}
