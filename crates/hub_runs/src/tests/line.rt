//! Over a gateway with its device.

use super::{DEVICE, JobKind, Telegram, group_turns, jobs_of};
use crate::gateway::{Gateway, Mood};
use device_sim::Device;
use hub_core::LogWhat;
use knx_model::NoMemory;
use line_fixed::FixedWatcher;
use line_model::Open;
use shared_hub::commission;
use std::alloc::Global;
use std::process::Abort;
use std::sync::Wait;
use std::test::Fail;
use std::thread::Threads;

/// What an entry of the log tells. Of a refusal the operation, what was got and what was expected.
#[derive(Clone, Copy, Drop)]
enum Told {
    Took(u32),
    Done(u32),
    Refused(u32, u32, &'static [u8], &'static [u8]),
    Sent(u32),
    Lost(u32),
}

fn is_told(what: &LogWhat, wanted: Told) -> bool {
    match (what, wanted) {
        (LogWhat::Took(job), Told::Took(number)) => *job == number,
        (LogWhat::Done(job), Told::Done(number)) => *job == number,
        (LogWhat::Sent(turn), Told::Sent(number)) => *turn == number,
        (LogWhat::Lost(turn), Told::Lost(number)) => *turn == number,
        (
            LogWhat::Refused {
                job,
                op,
                got,
                expected,
            },
            Told::Refused(number, at, octets, others),
        ) => {
            *job == number && *op == at && got.as_slice() == octets && expected.as_slice() == others
        }
        _ => false,
    }
}

#[derive(Drop)]
struct Row {
    name: &'static str,
    jobs: &'static [JobKind],
    groups: &'static [Telegram],
    mood: Mood,
    log: &'static [Told],
    connects: u32,
    disconnects: u32,
    heard: usize,
    fails: bool,
}

fn drive<R: Abort + Threads + Wait + Sync>(
    rt: &R,
    alloc: Global,
    row: &Row,
) -> Result<(), NoMemory> {
    let jobs = jobs_of(alloc, row.jobs)?;
    assert!(rt; jobs.len() < 100);
    assert!(rt; row.groups.len() < 100);
    let groups = group_turns(alloc, row.groups)?;
    let link = Gateway::new(alloc, Device::blank(alloc, DEVICE)?, row.mood);
    let nobody: Option<FixedWatcher> = None;
    let (link, report, _) = commission(rt, alloc, jobs, groups, link, 1, &Open, nobody);
    assert_eq!(rt; link.side.connects, row.connects, "{}", row.name);
    assert_eq!(rt; link.side.disconnects, row.disconnects, "{}", row.name);
    assert_eq!(rt; report.fault.is_some(), row.fails, "{}", row.name);
    assert_eq!(rt; report.heard.len(), row.heard, "{}", row.name);
    assert_eq!(rt; report.dropped, 0, "{}", row.name);
    assert_eq!(rt; report.log.len(), row.log.len(), "{}", row.name);
    for (i, entry) in report.log.as_slice().iter().enumerate() {
        if let Some(wanted) = row.log.get(i) {
            assert!(rt; is_told(&entry.what, *wanted), "{}", row.name);
        }
    }
    Ok(())
}

#[test]
fn runs(rt: HostRuntime) -> Result<(), Fail> {
    let rows = [
        Row {
            name: "nothing to do",
            jobs: &[],
            groups: &[],
            mood: Mood::Answers,
            log: &[],
            connects: 0,
            disconnects: 0,
            heard: 0,
            fails: false,
        },
        Row {
            name: "a load, a check and a telegram after them",
            jobs: &[JobKind::Load, JobKind::Check],
            groups: &[Telegram::WriteAfterJobs],
            mood: Mood::Answers,
            log: &[
                Told::Took(1),
                Told::Done(1),
                Told::Took(2),
                Told::Done(2),
                Told::Sent(1),
            ],
            connects: 1,
            disconnects: 1,
            heard: 0,
            fails: false,
        },
        Row {
            name: "a load, and the answer to a read after it",
            jobs: &[JobKind::Load],
            groups: &[Telegram::ReadAfterJobs],
            mood: Mood::Answers,
            log: &[Told::Took(1), Told::Done(1), Told::Sent(1)],
            connects: 1,
            disconnects: 1,
            heard: 1,
            fails: false,
        },
        Row {
            name: "a check of a blank device is refused",
            jobs: &[JobKind::Check],
            groups: &[],
            mood: Mood::Answers,
            log: &[
                Told::Took(1),
                Told::Refused(
                    1,
                    2,
                    &[0x03, 0xD6, 0x01, 0x05, 0x10, 0x01, 0x00],
                    &[0x03, 0xD6, 0x01, 0x05, 0x10, 0x01, 0x01],
                ),
            ],
            connects: 1,
            disconnects: 1,
            heard: 0,
            fails: false,
        },
        Row {
            name: "a device of another mask version is refused",
            jobs: &[JobKind::Load],
            groups: &[],
            mood: Mood::OtherMask,
            log: &[
                Told::Took(1),
                Told::Refused(1, 0, &[0x03, 0x40, 0x00, 0x12], &[0x03, 0x40, 0x07, 0xB0]),
            ],
            connects: 1,
            disconnects: 1,
            heard: 0,
            fails: false,
        },
        Row {
            name: "a channel is lost, and the next attempt loads",
            jobs: &[JobKind::Load],
            groups: &[],
            mood: Mood::DropsFrom(9),
            log: &[Told::Took(1), Told::Done(1)],
            connects: 2,
            disconnects: 2,
            heard: 0,
            fails: false,
        },
        Row {
            name: "a telegram is lost with its channel",
            jobs: &[],
            groups: &[Telegram::Write, Telegram::Write],
            mood: Mood::DropsFrom(1),
            log: &[Told::Lost(1), Told::Sent(2)],
            connects: 2,
            disconnects: 2,
            heard: 0,
            fails: false,
        },
        Row {
            name: "three tries are refused",
            jobs: &[JobKind::Load],
            groups: &[],
            mood: Mood::Refuses(0x24),
            log: &[Told::Took(1)],
            connects: 3,
            disconnects: 0,
            heard: 0,
            fails: true,
        },
    ];
    for row in &rows {
        drive(&rt, rt.alloc(), row)?;
    }
    Ok(())
}
