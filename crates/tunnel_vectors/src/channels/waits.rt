//! What is in vain, in turn, and numbers that come again.

use super::{
    At, From, again, channel, connecting, disconnect_request, frame, given, heartbeat, open,
    request,
};
use std::process::Abort;
use tunnel_channel::{Channel, ChannelExpired, ChannelTook};

/// What becomes due at these times, in turn.
fn assert_due(rt: &impl Abort, channel: &mut Channel, rows: &[(u64, ChannelExpired)]) {
    for (now, expired) in rows {
        assert_eq!(rt; &channel.expire(*now), expired, "at {now}");
    }
}

#[test]
fn a_request_in_vain_loses_the_channel(rt: HostRuntime) {
    let rows = [
        (999, ChannelExpired::Nothing),
        (1_000, ChannelExpired::Repeat(request(0))),
        (1_999, ChannelExpired::Nothing),
        (2_000, ChannelExpired::Lost),
        (2_000, ChannelExpired::Nothing),
    ];
    let mut channel = channel(At::Asking);
    assert_due(&rt, &mut channel, &rows);
    assert_eq!(rt; channel.leave(), Some(disconnect_request()));
}

#[test]
fn three_heartbeats_in_vain_lose_the_channel(rt: HostRuntime) {
    let rows = [
        (60_000, ChannelExpired::Beat(heartbeat())),
        (120_000, ChannelExpired::Beat(heartbeat())),
        (180_000, ChannelExpired::Beat(heartbeat())),
        (189_999, ChannelExpired::Nothing),
        (190_000, ChannelExpired::Dead),
    ];
    assert_due(&rt, &mut open(), &rows);
    let mut answered = open();
    assert_due(&rt, &mut answered, &rows[..2]);
    let _ = answered.take(&frame(From::State(7, 0)), 120_001);
    let later = [
        (180_000, ChannelExpired::Beat(heartbeat())),
        (240_000, ChannelExpired::Beat(heartbeat())),
        (249_999, ChannelExpired::Nothing),
        (250_000, ChannelExpired::Nothing),
        (300_000, ChannelExpired::Beat(heartbeat())),
        (310_000, ChannelExpired::Dead),
    ];
    assert_due(&rt, &mut answered, &later);
}

#[test]
fn of_several_that_are_due_the_first_comes(rt: HostRuntime) {
    let asking = [
        (60_000, ChannelExpired::Repeat(request(0))),
        (60_000, ChannelExpired::Beat(heartbeat())),
        (120_000, ChannelExpired::Lost),
    ];
    assert_due(&rt, &mut channel(At::Asking), &asking);
    let beats = [
        (60_000, ChannelExpired::Beat(heartbeat())),
        (120_000, ChannelExpired::Beat(heartbeat())),
        (180_000, ChannelExpired::Beat(heartbeat())),
    ];
    let mut dying = open();
    assert_due(&rt, &mut dying, &beats);
    let _ = dying.put(&connecting(), 180_000);
    assert_due(&rt, &mut dying, &[(190_000, ChannelExpired::Dead)]);
    let mut lapsing = open();
    assert_due(&rt, &mut lapsing, &beats);
    let _ = lapsing.put(&connecting(), 180_000);
    let last = [
        (181_000, ChannelExpired::Repeat(request(0))),
        (190_000, ChannelExpired::Lost),
    ];
    assert_due(&rt, &mut lapsing, &last);
}

#[test]
fn numbers_come_again_after_256(rt: HostRuntime) {
    let mut channel = open();
    for number in 0..=u8::MAX {
        assert_eq!(rt; channel.put(&connecting(), 0), Ok(request(number)));
        assert_eq!(rt;
            channel.take(&frame(From::Ack(7, number, 0)), 0),
            ChannelTook::Acked
        );
        assert_eq!(rt;
            channel.take(&frame(From::Request(7, number)), 0),
            given(number)
        );
        assert_eq!(rt;
            channel.take(&frame(From::Request(7, number)), 0),
            again(number)
        );
    }
    assert_eq!(rt; channel.put(&connecting(), 0), Ok(request(0)));
    assert_eq!(rt; channel.take(&frame(From::Request(7, 0)), 0), given(0));
}
