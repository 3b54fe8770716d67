//! Over the simulated line, of whose link each call fails in turn.

ghost use Rattle.std.specs.Prelude.{IfOk};
ghost use Rattle.bus_sim.specs.RunNow.{story};
ghost use Rattle.knx_model.specs.Device.{Fits};
ghost use Rattle.line_model.specs.LinkStory.{IsNewLink};

use super::{DEVICE, JobKind, group_turns, image_linked, jobs_of};
use crate::gateway::TUNNEL;
use bus_sim::{Refused, Script, SimBus};
use hub_core::{HubFault, LogWhat};
use knx_model::{Image, List, NoMemory};
use line_fixed::{FailingLink, FixedWatcher};
use line_model::{Open, Report};
use shared_hub::commission;
use std::alloc::Global;
use std::process::Abort;
use std::sync::Wait;
use std::test::Fail;
use std::thread::Threads;

/// More calls than a load of the device makes.
const MANY: u64 = 4_000;

/// The group address that the device runs with before, 1/2/4; the jobs' is 1/2/3.
const BEFORE: [u8; 2] = [0x0A, 0x04];

/// A line with the one device, of which no script says anything.
#[tactic(auto, using(bus_sim::proofs::New::new_line))]
fn line_of(alloc: Global, image: Image) -> Result<SimBus, Refused>
    requires { Fits image }
    ensures { IfOk result (λ line. IsNewLink (story line.run)) }
{
    let script = Script {
        lines: List::new(alloc),
    };
    let mut line = SimBus::empty(alloc);
    line.load(alloc, TUNNEL, &[(DEVICE, Some(image))], &script)?;
    line.keeps();
    Ok(line)
}

/// A load, whose link's n-th call fails.
fn run<R: Abort + Threads + Wait + Sync>(
    rt: &R,
    alloc: Global,
    n: u64,
) -> Result<(FailingLink<SimBus>, Report), Fail> {
    let line = line_of(alloc, image_linked(alloc, BEFORE)?)?;
    let link = FailingLink::new(line, n);
    let jobs = jobs_of(alloc, &[JobKind::Load])?;
    assert!(rt; jobs.len() < 100);
    let groups = group_turns(alloc, &[])?;
    let nobody: Option<FixedWatcher> = None;
    let (link, report, _) = commission(rt, alloc, jobs, groups, link, 1, &Open, nobody);
    Ok((link, report))
}

/// What the device runs: the last octet of its only group address, and 0 where it is stopped.
fn running(alloc: Global, line: &SimBus) -> Result<u8, NoMemory> {
    let Some(device) = line.state(DEVICE) else {
        return Ok(0);
    };
    match device.image(alloc)? {
        Some(image) => Ok(image.addr.as_slice().last().copied().unwrap_or(0)),
        None => Ok(0),
    }
}

/// Whether the log tells a job done.
fn tells_done(report: &Report) -> bool {
    report
        .log
        .as_slice()
        .iter()
        .any(|entry| matches!(entry.what, LogWhat::Done(_)))
}

/// The fault is LinkFailed, no call is made after it, and the device has what it had, or is stopped, or runs what the jobs say.
#[test]
fn each_call_fails_in_turn(rt: HostRuntime) -> Result<(), Fail> {
    let alloc = rt.alloc();
    for n in 1..MANY {
        let (link, report) = run(&rt, alloc, n)?;
        let running = running(alloc, &link.link)?;
        assert!(rt; matches!(running, 0 | 3 | 4), "{n}");
        assert!(rt; running == 3 || !tells_done(&report), "{n}");
        if report.fault.is_none() {
            assert_eq!(rt; running, 3);
            assert!(rt; link.calls < n);
            return Ok(());
        }
        assert!(rt; matches!(report.fault, Some(HubFault::LinkFailed)), "{n}");
        assert_eq!(rt; link.calls, n);
        assert_eq!(rt; link.faults.failed, 1);
    }
    Err(Fail::from("each call failed"))
}
