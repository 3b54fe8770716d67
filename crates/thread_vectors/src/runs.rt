//! Several workers at once, over a simulated line with a device for each job.

use crate::line::{blank_line, done_in, jobs_of_all};
use knx_model::List;
use line_fixed::FixedWatcher;
use line_model::{JobProgress, Open, Report};
use shared_hub::commission;
use std::alloc::Global;
use std::process::Abort;
use std::sync::Wait;
use std::test::Fail;
use std::thread::Threads;

/// Whether the watcher was told each entry of the log, in order and once.
fn told_all(watcher: &FixedWatcher, report: &Report) -> bool {
    let told = watcher.entries().iter();
    let log = report.log.as_slice();
    watcher.entries().len() == log.len()
        && told.zip(log).all(|(place, entry)| place.at == entry.at && place.worker == entry.worker)
}

/// Whether of each job each report comes a second after the one before it, and none tells more operations than all.
fn is_paced(reports: &[JobProgress]) -> bool {
    reports.iter().enumerate().all(|(i, report)| {
        let before = reports
            .iter()
            .take(i)
            .filter(|before| before.job == report.job)
            .last();
        report.done <= report.all
            && before.map_or(
                true,
                |before| before.now.saturating_add(1_000) <= report.now,
            )
    })
}

fn run<R: Abort + Threads + Wait + Sync>(
    rt: &R,
    alloc: Global,
    workers: u8,
) -> Result<Report, Fail> {
    let jobs = jobs_of_all(alloc)?;
    assert!(rt; jobs.len() < 100);
    assert!(rt; workers >= 1 && workers <= 8);
    let line = blank_line(alloc)?;
    let watcher = FixedWatcher::new(alloc);
    let (_line, report, watcher) = commission(
        rt,
        alloc,
        jobs,
        List::new(alloc),
        line,
        workers,
        &Open,
        watcher,
    );
    assert!(rt; told_all(&watcher, &report));
    assert!(rt; is_paced(watcher.reports()));
    Ok(report)
}

#[test]
fn any_number_of_workers_does_all(rt: HostRuntime) -> Result<(), Fail> {
    for workers in [1, 2, 4, 8] {
        let report = run(&rt, rt.alloc(), workers)?;
        assert!(rt; report.fault.is_none(), "with {workers}");
        assert_eq!(rt; done_in(report.log.as_slice()), 5, "with {workers}");
        assert_eq!(rt; report.log.len(), 10, "with {workers}");
        for entry in report.log.as_slice() {
            assert!(rt; entry.worker <= workers, "with {workers}");
        }
    }
    Ok(())
}
