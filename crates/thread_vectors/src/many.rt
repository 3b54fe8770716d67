//! As many jobs as words can name, over the devices of a line that a number makes, as a test.

use knx_gen::{GroupNames, project_from};
use knx_model::{MemoryFile, MemoryFiles, MemorySink, NoMemory};
use knx_top::{AddressBus, Report, SimBus, Status, knx};
use line_fixed::{FixedDialer, FixedWatcher};
use line_model::{LogWhat, Open};
use project_text::print_project;
use std::alloc::Global;
use std::sync::Wait;
use std::test::Fail;
use std::thread::Threads;

/// The most devices of a line, and the most jobs that words name.
const DEVICES: usize = 254;

const JOBS: usize = 1024;

/// The project of all devices that the number 1 makes, and an empty text.
fn files(alloc: Global) -> Result<MemoryFiles, NoMemory> {
    let names = GroupNames::new(alloc)?;
    let project = project_from(alloc, &names, 254, 1)?;
    let text = print_project(alloc, &project)?;
    let mut files = Vec::new(alloc);
    files.push(MemoryFile::new(alloc, "new", text.as_slice())?)?;
    files.push(MemoryFile::new(alloc, "e", b"")?)?;
    Ok(MemoryFiles::new(alloc, files))
}

/// `sim new e e workers=8`, and a load of one device after another, over and over.
fn words(alloc: Global) -> Result<Vec<String>, NoMemory> {
    let mut words = Vec::new(alloc);
    for word in ["sim", "new", "e", "e", "workers=8"] {
        words.push(String::from_str(alloc, word)?)?;
    }
    for job in 0..JOBS {
        let device = job % DEVICES + 1;
        words.push(format!(in alloc; "load:1.1.{device}")?)?;
    }
    Ok(words)
}

/// Where in the log each job is done, by its number; the first place is no job's.
fn places(alloc: Global, report: &Report) -> Result<Vec<Option<usize>>, NoMemory> {
    let mut places = Vec::new(alloc);
    for _ in 0..=JOBS {
        places.push(None)?;
    }
    for (place, entry) in report.log.as_slice().iter().enumerate() {
        if let LogWhat::Done(job) = entry.what {
            if let Some(done) = places.get_mut(job as usize) {
                *done = Some(place);
            }
        }
    }
    Ok(places)
}

/// The place of a job's end; none where there is none.
fn place_of(places: &[Option<usize>], job: usize) -> Option<usize> {
    match places.get(job) {
        Some(place) => *place,
        None => None,
    }
}

/// The status of a call with these words, and the report of its run.
fn run_of<R: Threads + Wait + Sync>(
    rt: &R,
    alloc: Global,
    words: &[String],
    files: &mut MemoryFiles,
) -> (Status, Option<Report>) {
    let mut sink = MemorySink::new(alloc);
    let mut sim = SimBus::empty(alloc);
    let mut units = AddressBus::empty(alloc);
    let mut dial = FixedDialer::new(None, None);
    let mut nobody: Option<FixedWatcher> = None;
    let mut last = None;
    let status = knx(
        rt,
        alloc,
        words,
        files,
        &mut sink,
        &mut sim,
        &mut units,
        &mut dial,
        &Open,
        &mut nobody,
        &mut last,
    );
    (status, last)
}

#[test]
fn jobs_end_in_the_order_of_each_device(rt: HostRuntime) -> Result<(), Fail> {
    let alloc = rt.alloc();
    let words = words(alloc)?;
    let mut files = files(alloc)?;
    let (status, report) = run_of(&rt, alloc, words.as_slice(), &mut files);
    assert_eq!(rt; status, Status::Done);
    let report = report.ok_or("a run")?;
    let places = places(alloc, &report)?;
    for job in 1..=JOBS {
        let before = job.saturating_sub(DEVICES);
        let done = place_of(places.as_slice(), job);
        assert!(rt; done.is_some());
        assert!(rt; before == 0 || place_of(places.as_slice(), before) < done);
    }
    Ok(())
}
