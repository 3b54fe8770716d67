//! Each ending of an attempt, and of a job.

use super::{CONNECT, DEVICE, DISCONNECT, Row, Shows, image, takes};
use download_core::{Downloader, JobPlan};
use download_plan::{CheckPlan, LoadPlan};
use knx_model::Sign;
use std::process::Abort;
use std::test::Fail;

/// A_DeviceDescriptor_Read as the first frame, its response, and another one.
const READ: &[u8] = &[0x43, 0x00];

const RESPONSE: &[u8] = &[0x43, 0x40, 0x07, 0xB0];

const OTHER_RESPONSE: &[u8] = &[0x43, 0x40, 0x57, 0xB0];
/// Property 56 of the device object is read.
const READ_LENGTH: &[u8] = &[0x47, 0xD5, 0x00, 0x38, 0x10, 0x01];

const CONNECTS: Row = Row::Steps(Shows::Sends(CONNECT));

const DISCONNECTS: Row = Row::Steps(Shows::Sends(DISCONNECT));

const ASKS: Row = Row::Steps(Shows::Sends(READ));

const ASKS_THE_LENGTH: Row = Row::Steps(Shows::Sends(READ_LENGTH));

/// T_ACK and T_NAK of a number.
const ACKNOWLEDGES_0: Row = Row::Steps(Shows::Sends(&[0xC2]));

const ACKNOWLEDGES_1: Row = Row::Steps(Shows::Sends(&[0xC6]));

const REFUSES_2: Row = Row::Steps(Shows::Sends(&[0xCB]));

const WAITS: Row = Row::Steps(Shows::Waits);

const SILENT_3000: Sign = Sign::Silent { ms: 3_000 };

const SILENT_6000: Sign = Sign::Silent { ms: 6_000 };

#[test]
fn silent_attempts_and_one_that_the_device_closes(rt: HostRuntime) -> Result<(), Fail> {
    let failed = Row::Steps(Shows::Failed(SILENT_3000, SILENT_6000, Sign::Closed));
    let rows: [(u64, Row); 44] = [
        (0, CONNECTS),
        (10, Row::Confirmed),
        (10, ASKS),
        (20, WAITS),
        (100, Row::Confirmed),
        (3_099, WAITS),
        (3_100, ASKS),
        (3_200, Row::Confirmed),
        (6_200, ASKS),
        (6_300, Row::Confirmed),
        (9_300, ASKS),
        (9_400, Row::Confirmed),
        (12_399, WAITS),
        (12_400, DISCONNECTS),
        (12_400, WAITS),
        (12_400, Row::Heard(RESPONSE)),
        (12_400, WAITS),
        (12_500, Row::Confirmed),
        (12_500, CONNECTS),
        (12_600, Row::Confirmed),
        (12_600, ASKS),
        (12_700, Row::Confirmed),
        (12_800, Row::Heard(&[0xC2])),
        (18_799, WAITS),
        // another number than the expected one is answered, and that begins the wait anew
        (18_799, Row::Heard(&[0x4B, 0x40, 0x07, 0xB0])),
        (18_800, REFUSES_2),
        (18_800, WAITS),
        (18_900, Row::Confirmed),
        (24_799, WAITS),
        // it is due, but a frame that comes late still counts
        (24_800, Row::Heard(&[0x4B, 0x40, 0x07, 0xB0])),
        (24_800, REFUSES_2),
        (24_900, Row::Confirmed),
        (30_799, WAITS),
        (30_800, DISCONNECTS),
        (30_900, Row::Confirmed),
        (30_900, CONNECTS),
        (31_000, Row::Confirmed),
        (31_000, ASKS),
        (31_100, Row::Heard(DISCONNECT)),
        (31_100, failed),
        (31_200, Row::Confirmed),
        (31_200, Row::Heard(RESPONSE)),
        (31_200, Row::Lost),
        (31_200, failed),
    ];
    let image = image(rt.alloc()).ok().ok_or("an image")?;
    let mut downloader = Downloader::new(DEVICE, JobPlan::Load(LoadPlan::of(image)));
    for (now, row) in rows {
        assert!(rt; takes(&mut downloader, now, row));
    }
    Ok(())
}

#[test]
fn a_wrong_ack_no_connection_and_a_lost_channel(rt: HostRuntime) -> Result<(), Fail> {
    let failed = Row::Steps(Shows::Failed(Sign::Closed, Sign::NoCon, Sign::TunnelLost));
    let rows: [(u64, Row); 19] = [
        (0, CONNECTS),
        (10, Row::Confirmed),
        (10, ASKS),
        (20, Row::Heard(&[0xC6])),
        (20, WAITS),
        (30, Row::Heard(&[0xC2])),
        (40, Row::Confirmed),
        (40, DISCONNECTS),
        (50, WAITS),
        (60, Row::Confirmed),
        (60, CONNECTS),
        (70, Row::NoCon),
        (70, CONNECTS),
        (80, Row::Confirmed),
        (80, ASKS),
        (90, WAITS),
        (90, Row::Lost),
        (90, failed),
        (90, failed),
    ];
    let image = image(rt.alloc()).ok().ok_or("an image")?;
    let mut downloader = Downloader::new(DEVICE, JobPlan::Check(CheckPlan::of(image)));
    for (now, row) in rows {
        assert!(rt; takes(&mut downloader, now, row));
    }
    Ok(())
}

#[test]
fn a_wrong_answer_ends_the_job(rt: HostRuntime) -> Result<(), Fail> {
    let refused = Row::Steps(Shows::Refused(1, &[0x03, 0x40, 0x07, 0xB0], &[]));
    let rows: [(u64, Row); 22] = [
        (0, CONNECTS),
        (0, Row::Heard(RESPONSE)),
        (10, Row::Confirmed),
        (10, ASKS),
        (20, Row::Confirmed),
        (30, Row::Heard(&[0xC2])),
        (30, WAITS),
        (40, Row::Heard(RESPONSE)),
        (40, ACKNOWLEDGES_0),
        (50, Row::Confirmed),
        (50, ASKS_THE_LENGTH),
        (60, Row::Confirmed),
        (60, Row::Heard(&[0x47, 0x40, 0x07, 0xB0])),
        (60, ACKNOWLEDGES_1),
        (70, Row::Confirmed),
        (70, WAITS),
        (80, Row::Heard(&[0xC6])),
        (80, DISCONNECTS),
        (80, WAITS),
        (90, Row::Lost),
        (90, refused),
        (90, refused),
    ];
    let image = image(rt.alloc()).ok().ok_or("an image")?;
    let mut downloader = Downloader::new(DEVICE, JobPlan::Check(CheckPlan::of(image)));
    for (now, row) in rows {
        assert!(rt; takes(&mut downloader, now, row));
    }
    Ok(())
}

#[test]
fn another_answer_than_the_expected_one(rt: HostRuntime) -> Result<(), Fail> {
    let refused = Row::Steps(Shows::Refused(
        0,
        &[0x03, 0x40, 0x57, 0xB0],
        &[0x03, 0x40, 0x07, 0xB0],
    ));
    let rows: [(u64, Row); 11] = [
        (0, CONNECTS),
        (10, Row::Confirmed),
        (10, ASKS),
        (20, Row::Confirmed),
        (30, Row::Heard(OTHER_RESPONSE)),
        (30, ACKNOWLEDGES_0),
        (40, Row::Confirmed),
        (50, Row::Heard(&[0xC2])),
        (50, DISCONNECTS),
        (60, Row::Confirmed),
        (60, refused),
    ];
    let image = image(rt.alloc()).ok().ok_or("an image")?;
    let mut downloader = Downloader::new(DEVICE, JobPlan::Load(LoadPlan::of(image)));
    for (now, row) in rows {
        assert!(rt; takes(&mut downloader, now, row));
    }
    Ok(())
}
