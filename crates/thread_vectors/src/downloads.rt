//! `download` over the simulated line, as tests: a dialer hands out a link that tells its events, so that each clause of the call has to hold of them.

ghost use Rattle.std.specs.Prelude.{IfOk};
ghost use Rattle.bus_sim.specs.RunNow.{story};
ghost use Rattle.line_model.specs.LinkStory.{IsNewLink};

use bus_sim::{Refused, Script};
use knx_model::{IndAddr, List, MemoryFile, MemoryFiles, MemorySink};
use knx_top::{AddressBus, Report, SimBus, Status, knx};
use line_fixed::{FixedWatcher, LineDialer};
use line_model::{HubFault, LogWhat, Open};
use std::alloc::Global;
use std::sync::Wait;
use std::test::Fail;
use std::thread::Threads;

/// The tunnel's address, 1.1.255, and the device's, 1.1.6.
const TUNNEL: IndAddr = IndAddr { raw: 0x11FF };

const DEVICE: IndAddr = IndAddr { raw: 0x1106 };

/// A line with the device, blank, of which no script says anything.
#[tactic(auto, using(bus_sim::proofs::New::new_line))]
fn line_of(alloc: Global) -> Result<SimBus, Refused>
    ensures { IfOk result (λ line. IsNewLink (story line.run)) }
{
    let script = Script {
        lines: List::new(alloc),
    };
    let mut line = SimBus::empty(alloc);
    line.load(alloc, TUNNEL, &[(DEVICE, None)], &script)?;
    line.keeps();
    Ok(line)
}

/// The status of a load and a check of the device over a line whose n-th call fails, the report, and whether the device runs then.
fn download<R: Threads + Wait + Sync>(
    rt: &R,
    alloc: Global,
    n: u64,
) -> Result<(Status, Option<Report>, bool), Fail> {
    let mut words = Vec::new(alloc);
    for word in ["download", "127.0.0.1", "new", "load:1.1.6", "check:1.1.6"] {
        words.push(String::from_str(alloc, word)?)?;
    }
    let mut files = Vec::new(alloc);
    files.push(MemoryFile::new(alloc, "new", b"device 1.1.6 inline\n")?)?;
    let mut files = MemoryFiles::new(alloc, files);
    let mut sink = MemorySink::new(alloc);
    let mut sim = SimBus::empty(alloc);
    let mut units = AddressBus::empty(alloc);
    let mut dial = LineDialer::new(line_of(alloc)?, n);
    let mut nobody: Option<FixedWatcher> = None;
    let mut last = None;
    let status = knx(
        rt,
        alloc,
        words.as_slice(),
        &mut files,
        &mut sink,
        &mut sim,
        &mut units,
        &mut dial,
        &Open,
        &mut nobody,
        &mut last,
    );
    let runs = match dial.line_back() {
        Some(line) => line.state(DEVICE).is_some_and(|device| device.runs()),
        None => false,
    };
    Ok((status, last, runs))
}

/// How many jobs the log tells done.
fn done(report: &Report) -> usize {
    report
        .log
        .as_slice()
        .iter()
        .filter(|entry| matches!(entry.what, LogWhat::Done(_)))
        .count()
}

#[test]
fn a_device_is_loaded_over_a_link_that_tells_its_events(rt: HostRuntime) -> Result<(), Fail> {
    let (status, report, runs) = download(&rt, rt.alloc(), 0)?;
    assert_eq!(rt; status, Status::Done);
    let report = report.ok_or("a run")?;
    assert!(rt; report.fault.is_none());
    assert_eq!(rt; done(&report), 2);
    assert!(rt; runs);
    Ok(())
}

#[test]
fn a_call_of_such_a_link_fails(rt: HostRuntime) -> Result<(), Fail> {
    let (status, report, _) = download(&rt, rt.alloc(), 10)?;
    assert_eq!(rt; status, Status::Link);
    let report = report.ok_or("a run")?;
    assert!(rt; matches!(report.fault, Some(HubFault::LinkFailed)));
    assert_eq!(rt; done(&report), 0);
    Ok(())
}
