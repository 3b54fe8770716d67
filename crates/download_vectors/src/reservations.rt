//! Orders in which jobs are given.

use device_reservation::{Jobs, Taken};
use knx_model::{IndAddr, NoMemory};
use std::alloc::Global;
use std::process::Abort;
use std::test::Fail;

/// What is done, and what is answered.
#[derive(Clone, Copy)]
enum Call {
    Take(Taken),
    Finish(u32),
}

use Call::{Finish, Take};
use Taken::{Job, Later, NoMore};

fn run(rt: &impl Abort, alloc: Global, devices: &[u16], calls: &[Call]) -> Result<(), NoMemory> {
    let mut addresses = Vec::new(alloc);
    for number in devices {
        addresses.push(IndAddr { raw: *number })?;
    }
    assert!(rt; addresses.len() < 100);
    let mut jobs = Jobs::new(alloc, &addresses)?;
    for call in calls {
        match *call {
            Take(answer) => assert_eq!(rt; jobs.take(1), answer),
            Finish(job) => {
                assert!(rt; jobs.is_held(job));
                jobs.finish(job);
            }
        }
    }
    Ok(())
}

/// Jobs of different devices are given in their order; those of one device one after another, the earlier first.
#[test]
fn jobs_are_given_in_order(rt: HostRuntime) -> Result<(), Fail> {
    let orders: [(&[u16], &[Call]); 4] = [
        (&[], &[Take(NoMore)]),
        (
            &[5, 6, 7],
            &[
                Take(Job(1)),
                Take(Job(2)),
                Finish(1),
                Take(Job(3)),
                Take(NoMore),
                Finish(3),
                Take(NoMore),
            ],
        ),
        (
            &[5, 5, 6, 5],
            &[
                Take(Job(1)),
                Take(Job(3)),
                Take(Later),
                Finish(3),
                Take(Later),
                Finish(1),
                Take(Job(2)),
                Take(Later),
                Finish(2),
                Take(Job(4)),
                Take(NoMore),
            ],
        ),
        (
            &[5, 6, 6, 5],
            &[
                Take(Job(1)),
                Take(Job(2)),
                Finish(2),
                Take(Job(3)),
                Finish(1),
                Take(Job(4)),
                Finish(3),
                Finish(4),
                Take(NoMore),
            ],
        ),
    ];
    for (devices, calls) in orders {
        run(&rt, rt.alloc(), devices, calls)?;
    }
    Ok(())
}
