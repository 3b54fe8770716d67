//! Runs of a line by one caller: over a gateway with its device, and over fixed datagrams.

ghost use Rattle.std.specs.Prelude.{◌<◌, length, IfOk};
ghost use Rattle.std.specs.List.{AllByRecursion};
ghost use Rattle.knx_model.specs.Device.{Fits};
ghost use Rattle.hub_work.specs.Requests.{IsTurnInRange};

use hub_core::{CheckPlan, GroupTurn, HubJob, JobPlan, LoadPlan};
use knx_model::{GroupAddr, GroupService, Image, IndAddr, List, NoMemory, Octets, Value};
use std::alloc::Global;

mod begin;
mod datagrams;
mod examples;
mod failing;
mod jumping;
mod line;
mod listening;
mod polls;

const DEVICE: IndAddr = IndAddr { raw: 0x1105 };

/// One object of one octet, linked to 1/2/3.
fn image(alloc: Global) -> Result<Image, NoMemory>
    ensures { IfOk result (λ image. Fits image) }
{
    image_linked(alloc, [0x0A, 0x03])
}

/// One object of one octet, linked to a group address.
fn image_linked(alloc: Global, group: [u8; 2]) -> Result<Image, NoMemory>
    ensures { IfOk result (λ image. Fits image) }
{
    Ok(Image {
        addr: Octets::from_slice(alloc, &[0x00, 0x01, group[0], group[1]])?,
        assoc: Octets::from_slice(alloc, &[0x00, 0x01, 0x00, 0x01, 0x00, 0x01])?,
        objs: Octets::from_slice(alloc, &[0x00, 0x01, 0x5F, 0x00])?,
        params: Octets::from_slice(alloc, &[])?,
    })
}

/// A group telegram of a run.
#[derive(Clone, Copy, Drop)]
enum Telegram {
    Write,
    WriteAfterJobs,
    ReadAfterJobs,
}

fn group_turn(telegram: Telegram) -> GroupTurn
    ensures { IsTurnInRange result }
{
    let (after, service) = match telegram {
        Telegram::Write => (false, GroupService::Write(Value::Short(1))),
        Telegram::WriteAfterJobs => (true, GroupService::Write(Value::Short(1))),
        Telegram::ReadAfterJobs => (true, GroupService::Read),
    };
    GroupTurn {
        after,
        group: GroupAddr { raw: 0x0A03 },
        service,
    }
}

fn group_turns(alloc: Global, telegrams: &[Telegram]) -> Result<List<GroupTurn>, NoMemory>
    requires { length telegrams.now < 100 }
    ensures range { IfOk result (AllByRecursion IsTurnInRange) }
    ensures few { IfOk result (λ turns. length turns < 4294967296) }
{
    let mut turns = List::new(alloc);
    for telegram in telegrams {
        turns.push(group_turn(*telegram))?;
    }
    Ok(turns)
}

/// What a job does.
#[derive(Clone, Copy)]
enum JobKind {
    Load,
    Check,
}

/// A job of the device.
fn job(alloc: Global, kind: JobKind) -> Result<HubJob, NoMemory> {
    let image = image(alloc)?;
    let plan = match kind {
        JobKind::Load => JobPlan::Load(LoadPlan::of(image)),
        JobKind::Check => JobPlan::Check(CheckPlan::of(image)),
    };
    Ok(HubJob {
        device: DEVICE,
        plan,
    })
}

/// Jobs of the device.
fn jobs_of(alloc: Global, kinds: &[JobKind]) -> Result<List<HubJob>, NoMemory> {
    let mut jobs = List::new(alloc);
    for kind in kinds {
        jobs.push(job(alloc, *kind)?)?;
    }
    Ok(jobs)
}
