//! A simulated line with a device for each job, and what is told of its jobs.

ghost use Rattle.std.specs.Prelude.{IfOk};
ghost use Rattle.bus_sim.specs.RunNow.{story};
ghost use Rattle.knx_model.specs.Device.{Fits};
ghost use Rattle.line_model.specs.LinkStory.{IsNewLink};

use bus_sim::{Refused, Script, SimBus};
use hub_core::{CheckPlan, HubJob, JobPlan, LoadPlan, LogEntry, LogWhat};
use knx_model::{Image, IndAddr, List, NoMemory, Octets};
use std::alloc::Global;

/// The tunnel's address, 1.1.255.
const TUNNEL: IndAddr = IndAddr { raw: 0x11FF };

/// The devices 1.1.5 to 1.1.8.
const DEVICES: [IndAddr; 4] = [
    IndAddr { raw: 0x1105 },
    IndAddr { raw: 0x1106 },
    IndAddr { raw: 0x1107 },
    IndAddr { raw: 0x1108 },
];

/// One object of one octet, linked to 1/2/3.
fn image(alloc: Global) -> Result<Image, NoMemory>
    ensures { IfOk result (λ image. Fits image) }
{
    Ok(Image {
        addr: Octets::from_slice(alloc, &[0x00, 0x01, 0x0A, 0x03])?,
        assoc: Octets::from_slice(alloc, &[0x00, 0x01, 0x00, 0x01, 0x00, 0x01])?,
        objs: Octets::from_slice(alloc, &[0x00, 0x01, 0x5F, 0x00])?,
        params: Octets::from_slice(alloc, &[])?,
    })
}

/// A line with four blank devices, on which nothing goes wrong.
#[tactic(auto, using(bus_sim::proofs::New::new_line))]
pub fn blank_line(alloc: Global) -> Result<SimBus, Refused>
    ensures { IfOk result (λ line. IsNewLink (story line.run)) }
{
    let script = Script {
        lines: List::new(alloc),
    };
    let mut line = SimBus::empty(alloc);
    let devices = [
        (DEVICES[0], None),
        (DEVICES[1], None),
        (DEVICES[2], None),
        (DEVICES[3], None),
    ];
    line.load(alloc, TUNNEL, &devices, &script)?;
    line.keeps(); // what each run keeps, for the proofs of its caller
    Ok(line)
}

/// A load of each device, and then a check of the first.
pub fn jobs_of_all(alloc: Global) -> Result<List<HubJob>, NoMemory> {
    let mut jobs = List::new(alloc);
    for device in DEVICES {
        let plan = JobPlan::Load(LoadPlan::of(image(alloc)?));
        jobs.push(HubJob { device, plan })?;
    }
    let plan = JobPlan::Check(CheckPlan::of(image(alloc)?));
    jobs.push(HubJob {
        device: DEVICES[0],
        plan,
    })?;
    Ok(jobs)
}

/// How many jobs a log tells done.
pub fn done_in(log: &[LogEntry]) -> usize {
    log.iter()
        .filter(|entry| matches!(entry.what, LogWhat::Done(_)))
        .count()
}
