//! The examples that stand on the pages of the crates of hub, tunnel and simulated line, each with what comes of it.

ghost use Rattle.std.specs.Prelude.{◌≤◌, length, IfOk};
ghost use Rattle.bus_sim.specs.RunNow.{story};
ghost use Rattle.line_model.specs.LinkStory.{IsNewLink};

use super::{DEVICE, JobKind, group_turns, jobs_of};
use crate::gateway::TUNNEL;
use bus_sim::{Refused, Script, SimBus};
use hub_core::{Hub, HubFault, Turned};
use knx_model::List;
use line_model::Link;
use std::alloc::Global;
use std::test::Fail;
use tunnel_link::Tunnel;

/// A line with one blank device, on which nothing goes wrong.
#[tactic(auto, using(bus_sim::proofs::New::new_line))]
fn blank_line(alloc: Global) -> Result<SimBus, Refused>
    ensures { IfOk result (λ line. IsNewLink (story line.run)) }
{
    let script = Script {
        lines: List::new(alloc),
    };
    let mut line = SimBus::empty(alloc);
    line.load(alloc, TUNNEL, &[(DEVICE, None)], &script)?;
    line.keeps(); // what each run keeps, for the proofs of its caller
    Ok(line)
}

/// Asks for a channel and polls until it is open, so many times at most.
fn open<L: Link>(tunnel: &mut Tunnel<L>, polls: u32) -> Result<bool, HubFault> {
    for _ in 0..polls {
        tunnel.act()?;
        tunnel.seek()?;
        tunnel.poll(100)?;
        if tunnel.is_open() {
            return Ok(true);
        }
    }
    Ok(false)
}

/// Does all jobs as the hub's only worker, in so many turns at most: it polls where a turn has nothing to do.
fn work<L: Link>(hub: &mut Hub<L>, turns: u32) -> Result<bool, HubFault>
    requires { 1 ≤ length hub.old.crew }
{
    for _ in 0..turns {
        match hub.turn(1)? {
            Turned::NoMore => return Ok(true),
            Turned::Wait | Turned::Later => {
                hub.pump()?;
            }
            _ => {}
        }
    }
    Ok(false)
}

#[test]
fn a_channel_is_opened(rt: HostRuntime) -> Result<(), Fail> {
    let line = blank_line(rt.alloc())?;
    let mut tunnel = Tunnel::begin(line);
    let opened = open(&mut tunnel, 10).ok().ok_or("no fault")?;
    assert!(rt; opened);
    Ok(())
}

#[test]
fn a_device_is_loaded(rt: HostRuntime) -> Result<(), Fail> {
    let alloc = rt.alloc();
    let jobs = jobs_of(alloc, &[JobKind::Load])?;
    assert!(rt; jobs.len() < 100);
    let groups = group_turns(alloc, &[])?;
    let line = blank_line(alloc)?;
    let mut hub = Hub::begin(alloc, jobs, groups, 1, line)
        .ok()
        .ok_or("memory")?;
    let done = work(&mut hub, 4_000).ok().ok_or("no fault")?;
    assert!(rt; done);
    let end = hub.close();
    let device = end.link.state(DEVICE).ok_or("the device")?;
    assert!(rt; device.runs());
    Ok(())
}
