//! A job that is held in a run of the program.

use crate::gate::HoldsTheFirst;
use crate::line::done_in;
use knx_model::{MemoryFile, MemoryFiles, MemorySink, NoMemory};
use knx_top::{AddressBus, Report, SimBus, Status, knx};
use line_fixed::{FixedDialer, FixedWatcher};
use line_model::Gate;
use std::alloc::Global;
use std::sync::Wait;
use std::test::Fail;
use std::thread::Threads;

/// Three devices, and so three jobs.
const PROJECT: &str = "\
ga 1/2/3 light
device 1.1.5 inline
object 1.1.5 1 1 CRWTU
object 1.1.5 2 1 CW
link 1.1.5 1 1/2/3
link 1.1.5 2 1/2/3
device 1.1.6 inline
object 1.1.6 4 1 CW
link 1.1.6 4 1/2/3
device 1.1.7 inline
object 1.1.7 1 1 CW
link 1.1.7 1 1/2/3
";

fn files(alloc: Global) -> Result<MemoryFiles, NoMemory> {
    let mut files = Vec::new(alloc);
    files.push(MemoryFile::new(alloc, "c.txt", PROJECT.as_bytes())?)?;
    files.push(MemoryFile::new(alloc, "e", b"")?)?;
    Ok(MemoryFiles::new(alloc, files))
}

/// `sim c.txt e e` and a last word.
fn words(alloc: Global, workers: &str) -> Result<Vec<String>, NoMemory> {
    let mut words = Vec::new(alloc);
    for word in ["sim", "c.txt", "e", "e", workers] {
        words.push(String::from_str(alloc, word)?)?;
    }
    Ok(words)
}

/// The status of the call, and the report of its run.
fn run_of<R: Threads + Wait + Sync, G: Gate + Sync>(
    rt: &R,
    alloc: Global,
    workers: &str,
    gate: &G,
) -> Result<(Status, Option<Report>), Fail> {
    let words = words(alloc, workers)?;
    let mut files = files(alloc)?;
    let mut sink = MemorySink::new(alloc);
    let mut sim = SimBus::empty(alloc);
    let mut units = AddressBus::empty(alloc);
    let mut dial = FixedDialer::new(None, None);
    let mut nobody: Option<FixedWatcher> = None;
    let mut last = None;
    let status = knx(
        rt,
        alloc,
        words.as_slice(),
        &mut files,
        &mut sink,
        &mut sim,
        &mut units,
        &mut dial,
        gate,
        &mut nobody,
        &mut last,
    );
    Ok((status, last))
}

/// Of two workers the other goes through job 2, before he takes job 3.
#[test]
fn a_job_goes_on_while_another_is_held(rt: HostRuntime) -> Result<(), Fail> {
    for workers in ["workers=2", "workers=4"] {
        let gate = HoldsTheFirst::new();
        let (status, report) = run_of(&rt, rt.alloc(), workers, &gate)?;
        assert_eq!(rt; status, Status::Done, "with {workers}");
        let report = report.ok_or("a run")?;
        assert_eq!(rt; done_in(report.log.as_slice()), 3, "with {workers}");
        assert_eq!(rt; gate.gave_up(), 0, "with {workers}");
    }
    Ok(())
}

#[test]
fn one_worker_takes_one_job_after_another(rt: HostRuntime) -> Result<(), Fail> {
    let gate = HoldsTheFirst::new();
    let (status, report) = run_of(&rt, rt.alloc(), "workers=1", &gate)?;
    assert_eq!(rt; status, Status::Done);
    let report = report.ok_or("a run")?;
    assert_eq!(rt; done_in(report.log.as_slice()), 3);
    assert_eq!(rt; gate.gave_up(), 1);
    Ok(())
}
