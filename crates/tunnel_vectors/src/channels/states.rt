//! Each state by each frame and by each time.

use super::{
    At, From, TUNNEL, again, channel, closed, connecting, disconnect_request, frame, given, gone,
    heartbeat, request,
};
use knx_model::Datagram;
use tunnel_channel::{ChannelExpired, ChannelTook, PutRefused};

#[test]
fn each_state_answers_each_frame(rt: HostRuntime) {
    let refused = ChannelTook::RefusedBy { status: 0x24 };
    let rows: [(At, From, u64, ChannelTook); 40] = [
        (At::Idle, From::Response(0), 0, ChannelTook::Dropped),
        (At::Idle, From::Request(7, 0), 0, ChannelTook::Dropped),
        (
            At::Seeking,
            From::Response(0),
            9_999,
            ChannelTook::Up { tunnel: TUNNEL },
        ),
        (At::Seeking, From::Response(0), 10_000, ChannelTook::Dropped),
        (At::Seeking, From::Response(0x24), 9_999, refused),
        (
            At::Seeking,
            From::Response(0x24),
            10_000,
            ChannelTook::Dropped,
        ),
        (At::Seeking, From::Request(7, 0), 0, ChannelTook::Dropped),
        (At::Seeking, From::Disconnect(7), 0, ChannelTook::Dropped),
        (At::Open, From::Response(0), 0, ChannelTook::Dropped),
        (At::Open, From::ConnectRequest, 0, ChannelTook::Dropped),
        (At::Open, From::StateRequest, 0, ChannelTook::Dropped),
        (At::Open, From::State(7, 0), 0, ChannelTook::Dropped),
        (At::Open, From::Ack(7, 0, 0), 0, ChannelTook::Dropped),
        (At::Open, From::Request(7, 0), 0, given(0)),
        (At::Open, From::Request(7, 255), 0, again(255)),
        (At::Open, From::Request(7, 1), 0, ChannelTook::Dropped),
        (At::Open, From::Request(8, 0), 0, ChannelTook::Dropped),
        (At::Open, From::Disconnect(7), 0, closed()),
        (At::Open, From::Disconnect(8), 0, ChannelTook::Dropped),
        (At::Open, From::Disconnected(7), 0, ChannelTook::Dropped),
        (At::Asking, From::Ack(7, 0, 0), 999, ChannelTook::Acked),
        (At::Asking, From::Ack(7, 0, 0), 1_000, ChannelTook::Acked),
        (At::Asking, From::Ack(7, 1, 0), 0, ChannelTook::Dropped),
        (At::Asking, From::Ack(7, 0, 0x29), 0, ChannelTook::Dropped),
        (At::Asking, From::Ack(8, 0, 0), 0, ChannelTook::Dropped),
        (At::Asking, From::Request(7, 0), 0, given(0)),
        (At::Beating, From::State(7, 0), 69_999, ChannelTook::Alive),
        (At::Beating, From::State(7, 0), 70_000, ChannelTook::Dropped),
        (At::Beating, From::State(7, 0x21), 69_999, gone()),
        (
            At::Beating,
            From::State(7, 0x21),
            70_000,
            ChannelTook::Dropped,
        ),
        (At::Beating, From::State(8, 0), 60_000, ChannelTook::Dropped),
        (At::Leaving, From::Disconnected(7), 0, gone()),
        (At::Leaving, From::Disconnected(8), 0, ChannelTook::Dropped),
        (At::Leaving, From::Disconnect(7), 0, closed()),
        (At::Leaving, From::Request(7, 0), 0, given(0)),
        (At::Leaving, From::State(7, 0), 0, ChannelTook::Dropped),
        (At::Lost, From::Request(7, 0), 2_000, ChannelTook::Dropped),
        (At::Lost, From::Disconnect(7), 2_000, ChannelTook::Dropped),
        (At::Lost, From::Disconnected(7), 2_000, ChannelTook::Dropped),
        (At::Lost, From::Response(0), 2_000, ChannelTook::Dropped),
    ];
    for (at, from, now, took) in rows {
        let mut channel = channel(at);
        assert_eq!(rt;
            channel.take(&frame(from), now),
            took,
            "{from:?} in {at:?} at {now}"
        );
    }
}

#[test]
fn each_state_expires_at_its_time(rt: HostRuntime) {
    let rows: [(At, u64, Option<u64>, ChannelExpired); 12] = [
        (At::Idle, 100_000, None, ChannelExpired::Nothing),
        (At::Seeking, 9_999, Some(10_000), ChannelExpired::Nothing),
        (At::Seeking, 10_000, Some(10_000), ChannelExpired::NoAnswer),
        (At::Open, 59_999, Some(60_000), ChannelExpired::Nothing),
        (
            At::Open,
            60_000,
            Some(60_000),
            ChannelExpired::Beat(heartbeat()),
        ),
        (At::Asking, 999, Some(1_000), ChannelExpired::Nothing),
        (
            At::Asking,
            1_000,
            Some(1_000),
            ChannelExpired::Repeat(request(0)),
        ),
        (
            At::Asking,
            60_000,
            Some(1_000),
            ChannelExpired::Repeat(request(0)),
        ),
        (At::Beating, 119_999, Some(120_000), ChannelExpired::Nothing),
        (
            At::Beating,
            120_000,
            Some(120_000),
            ChannelExpired::Beat(heartbeat()),
        ),
        (
            At::Leaving,
            60_000,
            Some(60_000),
            ChannelExpired::Beat(heartbeat()),
        ),
        (At::Lost, 100_000, None, ChannelExpired::Nothing),
    ];
    for (at, now, deadline, expired) in rows {
        let mut channel = channel(at);
        assert_eq!(rt; channel.deadline(), deadline, "in {at:?}");
        assert_eq!(rt; channel.expire(now), expired, "{at:?} at {now}");
    }
}

#[test]
fn each_state_puts_and_leaves(rt: HostRuntime) {
    let rows: [(At, Result<Datagram, PutRefused>, bool); 7] = [
        (At::Idle, Err(PutRefused::NotUp), false),
        (At::Seeking, Err(PutRefused::NotUp), false),
        (At::Open, Ok(request(0)), true),
        (At::Asking, Err(PutRefused::Busy), true),
        (At::Beating, Ok(request(0)), true),
        (At::Leaving, Ok(request(0)), true),
        (At::Lost, Err(PutRefused::NotUp), true),
    ];
    for (at, put, leaves) in rows {
        let mut channel = channel(at);
        assert_eq!(rt; channel.put(&connecting(), 60_000), put, "in {at:?}");
        let request = if leaves {
            Some(disconnect_request())
        } else {
            None
        };
        assert_eq!(rt; channel.leave(), request, "in {at:?}");
    }
    let mut lost = channel(At::Lost);
    let _ = lost.leave();
    assert_eq!(rt; lost.leave(), None);
}
