//! The report of a run over the line, with each kind of line, and its status.

use call_words::{Case, JobKind, JobWord, Status};
use knx_model::{
    ApduOctets, Counts, GroupAddr, GroupService, IndAddr, List, LongValue, NoMemory, Sign, Value,
};
use line_model::{HubFault, Indication, LogEntry, LogWhat, Report, Try};
use report_text::{DeviceShown, line_report_of, line_status, sums_text};
use std::alloc::Global;
use std::process::Abort;
use std::test::Fail;

const DEVICE: IndAddr = IndAddr { raw: 0x1105 };

const OTHER: IndAddr = IndAddr { raw: 0x1209 };

const TUNNEL: IndAddr = IndAddr { raw: 0x11FF };

const GROUP: GroupAddr = GroupAddr { raw: 0x0A03 };

fn entry(at: u64, worker: u8, what: LogWhat) -> LogEntry {
    LogEntry { at, worker, what }
}

/// Two workers and the group thread: a check that is refused, a load that is done, and one that fails.
fn log(alloc: Global) -> Result<List<LogEntry>, NoMemory> {
    let refused = LogWhat::Refused {
        job: 1,
        op: 0,
        got: ApduOctets::from_slice(&[0x03, 0x40, 0x00, 0x12]),
        expected: ApduOctets::new(),
    };
    let signs = [Sign::NoCon, Sign::Silent { ms: 3000 }, Sign::TunnelLost];
    let mut log = List::new(alloc);
    log.push(entry(4, 1, LogWhat::Took(1)))?;
    log.push(entry(9, 1, refused))?;
    log.push(entry(9, 2, LogWhat::Took(2)))?;
    log.push(entry(12, 0, LogWhat::Sent(1)))?;
    log.push(entry(40, 2, LogWhat::Done(2)))?;
    log.push(entry(40, 1, LogWhat::Took(3)))?;
    log.push(entry(99, 1, LogWhat::Failed(3, signs)))?;
    log.push(entry(99, 0, LogWhat::Lost(2)))?;
    Ok(log)
}

/// A read, and a response with a value of at most six bits.
fn heard(alloc: Global) -> Result<List<Indication>, NoMemory> {
    let mut heard = List::new(alloc);
    for service in [GroupService::Read, GroupService::Response(Value::Short(1))] {
        heard.push(Indication {
            from: DEVICE,
            group: GROUP,
            service,
        })?;
    }
    Ok(heard)
}

/// A device with a value of at most six bits and a long one, and a stopped one.
fn devices(alloc: Global) -> Result<List<DeviceShown>, NoMemory> {
    let mut values = List::new(alloc);
    values.push((1, Value::Short(0x3F)))?;
    values.push((4, Value::Long(LongValue::from_slice(&[0x00, 0xC8]))))?;
    let mut devices = List::new(alloc);
    devices.push(DeviceShown {
        device: DEVICE,
        case: Case::New,
        values,
    })?;
    devices.push(DeviceShown {
        device: OTHER,
        case: Case::Stopped,
        values: List::new(alloc),
    })?;
    Ok(devices)
}

const WHOLE: &[u8] = b"job 1 check 1.1.5 refused 0 got 03400012 expected -
job 2 load 1.1.5 done
job 3 load 1.1.5 failed nocon silent tunnel
job 4 load 1.1.5 open
group 1 sent
group 2 lost
group 3 open
heard 1/2/3 1.1.5 read
heard 1/2/3 1.1.5 response s01
device 1.1.5 new 1=s3F 4=00C8
device 1.2.9 stopped
missed 2
log 4 1 took 1
log 9 1 refused 1
log 9 2 took 2
log 12 0 sent 1
log 40 2 done 2
log 40 1 took 3
log 99 1 failed 3
log 99 0 lost 2
dropped 7
gateway refused 24 - 24
";

#[test]
fn each_kind_of_line_is_printed(rt: HostRuntime) -> Result<(), Fail> {
    let alloc = rt.alloc();
    let load = JobWord {
        device: DEVICE,
        kind: JobKind::Load,
    };
    let check = JobWord {
        kind: JobKind::Check,
        ..load
    };
    let report = Report {
        log: log(alloc)?,
        heard: heard(alloc)?,
        missed: 2,
        dropped: 7,
        fault: Some(HubFault::GatewayRefused([
            Try::Status(0x24),
            Try::NoAnswer,
            Try::Status(0x24),
        ])),
    };
    let jobs = [check, load, load, load];
    let devices = devices(alloc)?;
    let text = line_report_of(alloc, &report, &jobs, 3, devices.as_slice(), true)?;
    assert_eq!(rt; text.as_slice(), WHOLE);
    assert_eq!(rt; line_status(&report), Status::GatewayRefused);
    Ok(())
}

#[test]
fn sums_are_told_with_the_fault_or_the_fault_alone(rt: HostRuntime) -> Result<(), Fail> {
    let alloc = rt.alloc();
    let counts = Counts {
        devices: 2,
        objects: 16,
        links: 64,
    };
    let devices = devices(alloc)?;
    let mut report = Report {
        log: log(alloc)?,
        heard: List::new(alloc),
        missed: 0,
        dropped: 0,
        fault: Some(HubFault::Flooded),
    };
    let flooded = sums_text(alloc, &report, counts, devices.as_slice())?;
    let sums = b"devices 2 objects 16 links 64 done 1 new 1\nflooded\n";
    assert_eq!(rt; flooded.as_slice(), sums.as_slice());
    report.fault = Some(HubFault::WrongLine {
        device: OTHER,
        tunnel: TUNNEL,
    });
    let elsewhere = sums_text(alloc, &report, counts, devices.as_slice())?;
    let alone = b"wrong line 1.2.9 tunnel 1.1.255\n";
    assert_eq!(rt; elsewhere.as_slice(), alone.as_slice());
    Ok(())
}

/// What is told of a run without jobs that ended so, and its status.
fn ends_so(
    rt: &impl Abort,
    alloc: Global,
    fault: Option<HubFault>,
    text: &[u8],
    status: Status,
) -> Result<(), NoMemory> {
    let report = Report {
        log: List::new(alloc),
        heard: List::new(alloc),
        missed: 0,
        dropped: 0,
        fault,
    };
    let told = line_report_of(alloc, &report, &[], 0, &[], false)?;
    assert_eq!(rt; told.as_slice(), text);
    assert_eq!(rt; line_status(&report), status);
    Ok(())
}

#[test]
fn each_end_has_its_line_and_its_status(rt: HostRuntime) -> Result<(), Fail> {
    let alloc = rt.alloc();
    let elsewhere = HubFault::WrongLine {
        device: OTHER,
        tunnel: TUNNEL,
    };
    let elsewhere_text = b"wrong line 1.2.9 tunnel 1.1.255\n";
    ends_so(&rt, alloc, None, b"missed 0\n", Status::Done)?;
    ends_so(
        &rt,
        alloc,
        Some(HubFault::LinkFailed),
        b"missed 0\nlink fault\n",
        Status::Link,
    )?;
    ends_so(
        &rt,
        alloc,
        Some(HubFault::Flooded),
        b"missed 0\nflooded\n",
        Status::Flooded,
    )?;
    ends_so(
        &rt,
        alloc,
        Some(elsewhere),
        elsewhere_text,
        Status::WrongLine,
    )?;
    Ok(())
}
