//! Over a gateway, of whose polls each in turn lasts so long that all that is awaited is lost in it.

use super::{DEVICE, JobKind, group_turns, jobs_of};
use crate::gateway::{Gateway, Jump, Mood};
use device_sim::Device;
use hub_core::LogWhat;
use knx_model::NoMemory;
use line_fixed::FixedWatcher;
use line_model::{Open, Report};
use shared_hub::commission;
use std::alloc::Global;
use std::process::Abort;
use std::sync::Wait;
use std::test::Fail;
use std::thread::Threads;

/// More polls than a load of the device makes.
const MANY: u64 = 4_000;

/// Longer than the client's waits but the pause between two heartbeats, in milliseconds.
const LONG: u64 = 20_000;

/// A load, in whose n-th poll the clock jumps.
fn run<R: Abort + Threads + Wait + Sync>(
    rt: &R,
    alloc: Global,
    n: u64,
) -> Result<(Gateway, Report), NoMemory> {
    let jobs = jobs_of(alloc, &[JobKind::Load])?;
    assert!(rt; jobs.len() < 100);
    let groups = group_turns(alloc, &[])?;
    let jump = Jump { poll: n, ms: LONG };
    let link = Gateway::new(alloc, Device::blank(alloc, DEVICE)?, Mood::Answers).jumping(jump);
    let nobody: Option<FixedWatcher> = None;
    let (link, report, _) = commission(rt, alloc, jobs, groups, link, 1, &Open, nobody);
    Ok((link, report))
}

/// Whether the last entry of the log tells a job done.
fn ends_done(report: &Report) -> bool {
    match report.log.as_slice().last() {
        Some(entry) => matches!(entry.what, LogWhat::Done(_)),
        None => false,
    }
}

/// A channel that was lost is told and sought again, and the job is done in the end.
#[test]
fn the_clock_jumps_in_each_poll_in_turn(rt: HostRuntime) -> Result<(), Fail> {
    let alloc = rt.alloc();
    let mut sought_again: u64 = 0;
    for n in 1..MANY {
        let (link, report) = run(&rt, alloc, n)?;
        assert!(rt; report.fault.is_none(), "{n}");
        assert!(rt; ends_done(&report), "{n}");
        if link.side.connects > 1 {
            sought_again = sought_again.saturating_add(1);
        }
        if link.polls < n {
            assert!(rt; sought_again > 0);
            return Ok(());
        }
    }
    Err(Fail::from("the clock jumped in each poll"))
}
