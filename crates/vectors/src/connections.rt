//! Both ends of a numbered connection, call by call (ISO/IEC 14543-3-2, transport layer).

ghost use Rattle.std.specs.Prelude.{◌≤◌};
ghost use Rattle.knx_model.specs.Connection.{IsApdu};

use std::process::Abort;
use transport_conn::{
    ApduOctets, Busy, ClientConfirmed, ClientConn, ClientExpired, ClientTook, DeviceConn,
    DeviceExpired, DeviceTook, IndAddr,
};

const CLIENT: IndAddr = IndAddr { raw: 0x11FF };

const OTHER: IndAddr = IndAddr { raw: 0x11FE };

const DEVICE: IndAddr = IndAddr { raw: 0x1105 };

/// A_DeviceDescriptor_Read and its response, and an A_Memory_Write, with transport bits 0.
const READ: [u8; 2] = [0x03, 0x00];

const RESPONSE: [u8; 4] = [0x03, 0x40, 0x07, 0xB0];

const WRITE: [u8; 5] = [0x02, 0x81, 0x40, 0x00, 0xAB];

fn octets<const N: usize>(octets: [u8; N]) -> ApduOctets
    requires { N ≤ 64 }
{
    ApduOctets::from_slice(&octets)
}

#[test]
fn a_device_delivers_each_service_once(rt: HostRuntime) {
    let rows: [(&[u8], DeviceTook); 7] = [
        (
            &[0x43, 0x00],
            DeviceTook::Closed {
                answer: Some(octets([0x81])),
            },
        ),
        (&[0x80], DeviceTook::Connected),
        (
            &[0x43, 0x00],
            DeviceTook::Apdu {
                apdu: octets(READ),
                ack: octets([0xC2]),
            },
        ),
        (
            &[0x43, 0x00],
            DeviceTook::Again {
                ack: octets([0xC2]),
            },
        ),
        (&[0x47, 0x00], DeviceTook::Dropped),
        (&[0xC2], DeviceTook::Acked),
        (&[0x4B, 0x00], DeviceTook::Nak(octets([0xCB]))),
    ];
    let mut conn = DeviceConn::idle();
    for (tpdu, took) in rows {
        let is_service = matches!(&took, DeviceTook::Apdu { .. });
        assert_eq!(rt; conn.would_take(CLIENT, tpdu), took, "at {tpdu:?}");
        assert_eq!(rt; conn.take(CLIENT, tpdu, 0), took, "at {tpdu:?}");
        if is_service {
            let answer = Ok(octets([0x43, 0x40, 0x07, 0xB0]));
            assert_eq!(rt; conn.answer(&RESPONSE, 0), answer);
            assert_eq!(rt; conn.answer(&RESPONSE, 0), Err(Busy));
        }
    }
    let refused = DeviceTook::Closed {
        answer: Some(octets([0x81])),
    };
    assert_eq!(rt; conn.take(OTHER, &[0x80], 0), refused);
    assert_eq!(rt; conn.partner(), Some(CLIENT));
    assert_eq!(rt;
        conn.take(CLIENT, &[0x81], 0),
        DeviceTook::Closed { answer: None }
    );
    assert!(rt; conn.partner().is_none());
}

#[test]
fn a_device_sends_an_answer_four_times_and_closes(rt: HostRuntime) {
    let answer = [0x43, 0x40, 0x07, 0xB0];
    let rows: [(u64, u64, DeviceExpired); 6] = [
        (2_999, 3_000, DeviceExpired::Nothing),
        (3_000, 3_000, DeviceExpired::Repeat(octets(answer))),
        (6_000, 6_000, DeviceExpired::Repeat(octets(answer))),
        (9_000, 9_000, DeviceExpired::Repeat(octets(answer))),
        (14_999, 15_000, DeviceExpired::Nothing),
        (15_000, 15_000, DeviceExpired::Closed(octets([0x81]))),
    ];
    let mut conn = DeviceConn::idle();
    assert_eq!(rt; conn.take(CLIENT, &[0x80], 0), DeviceTook::Connected);
    assert_eq!(rt; conn.answer(&RESPONSE, 0), Ok(octets(answer)));
    for (now, deadline, expired) in rows {
        assert_eq!(rt; conn.deadline(), Some(deadline), "at {now}");
        assert_eq!(rt; conn.would_expire(now), expired, "at {now}");
        assert_eq!(rt; conn.expire(now), expired, "at {now}");
    }
    assert_eq!(rt; conn.deadline(), None);
}

/// A connection that is up, and on which a service was sent and confirmed at 0.
fn asking(rt: &impl Abort, apdu: &[u8]) -> ClientConn
    requires { IsApdu apdu.now }
{
    let mut conn = ClientConn::begin(DEVICE);
    assert_eq!(rt; conn.send(apdu, 0), Err(Busy));
    assert_eq!(rt; conn.confirmed(false, 0), ClientConfirmed::Up);
    assert!(rt; conn.send(apdu, 0).is_ok());
    assert_eq!(rt; conn.expire(9_000), ClientExpired::Nothing);
    assert_eq!(rt; conn.confirmed(true, 0), ClientConfirmed::Timed);
    conn
}

#[test]
fn a_client_hears_each_answer_once(rt: HostRuntime) {
    let answer: [u8; 4] = [0x43, 0x40, 0x07, 0xB0];
    let rows: [(&[u8], ClientTook); 8] = [
        (
            &answer,
            ClientTook::Answer {
                apdu: octets(RESPONSE),
                ack: octets([0xC2]),
            },
        ),
        (
            &answer,
            ClientTook::Again {
                ack: octets([0xC2]),
            },
        ),
        (&[0x4B, 0x40, 0x07, 0xB0], ClientTook::Nak(octets([0xCB]))),
        (&[0xC2], ClientTook::Acked),
        (&[0xC2], ClientTook::Dropped),
        (&[0xC7], ClientTook::Dropped),
        (
            &[0xC6],
            ClientTook::Closed {
                answer: Some(octets([0x81])),
            },
        ),
        (&answer, ClientTook::Dropped),
    ];
    let mut conn = asking(&rt, &READ);
    for (tpdu, took) in rows {
        assert_eq!(rt; conn.would_take(tpdu), took, "at {tpdu:?}");
        assert_eq!(rt; conn.take(tpdu, 0), took, "at {tpdu:?}");
    }
    assert_eq!(rt; conn.device(), None);
}

#[test]
fn a_client_ends_where_its_device_is_silent(rt: HostRuntime) {
    let question = [0x43, 0x00];
    let rows: [(u64, u64, ClientExpired); 4] = [
        (2_000, 3_000, ClientExpired::Repeat(octets(question))),
        (4_000, 7_000, ClientExpired::Repeat(octets(question))),
        (8_000, 11_000, ClientExpired::Repeat(octets(question))),
        (12_000, 15_000, ClientExpired::Silent { ms: 3_000 }),
    ];
    let mut conn = asking(&rt, &READ);
    for (confirmed, passed, expired) in rows {
        assert_eq!(rt; conn.confirmed(false, confirmed), ClientConfirmed::Timed);
        assert_eq!(rt; conn.deadline(), Some(passed));
        assert_eq!(rt; conn.expire(passed - 1), ClientExpired::Nothing);
        assert_eq!(rt; conn.would_expire(passed), expired);
        assert_eq!(rt; conn.expire(passed), expired);
    }
    let mut conn = asking(&rt, &READ);
    assert_eq!(rt; conn.take(&[0xC2], 100), ClientTook::Acked);
    assert_eq!(rt; conn.deadline(), Some(6_100));
    assert_eq!(rt; conn.expire(6_100), ClientExpired::Silent { ms: 6_000 });
    let mut conn = asking(&rt, &WRITE);
    assert!(rt; !conn.awaits_nothing());
    assert_eq!(rt; conn.take(&[0xC2], 100), ClientTook::Acked);
    assert!(rt; conn.awaits_nothing());
    assert_eq!(rt; conn.deadline(), None);
    let mut conn = ClientConn::begin(DEVICE);
    assert_eq!(rt; conn.take(&[0x43, 0x00], 0), ClientTook::Dropped);
    assert_eq!(rt; conn.device(), Some(DEVICE));
    assert_eq!(rt; conn.confirmed(true, 0), ClientConfirmed::NoCon);
}
