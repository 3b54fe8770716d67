//! The beginning of a hub.

use super::{JobKind, Telegram, group_turns, jobs_of};
use hub_core::Hub;
use knx_model::{List, Octets};
use line_fixed::FixedLink;
use std::test::Fail;

/// A hub that begins or for which there is no memory gives its link back, and nothing was done on it.
#[test]
fn hands_its_link_back(rt: HostRuntime) -> Result<(), Fail> {
    let alloc = rt.alloc();
    let mut gives = List::new(alloc);
    gives.push(Octets::from_slice(alloc, &[0x06])?)?;
    let link = FixedLink::new(alloc, gives, None, List::new(alloc));
    let jobs = jobs_of(alloc, &[JobKind::Load, JobKind::Check])?;
    assert!(rt; jobs.len() < 100);
    let groups = group_turns(alloc, &[Telegram::Write])?;
    let link = match Hub::begin(alloc, jobs, groups, 1, link) {
        Ok(hub) => hub.close().link,
        Err((link, _)) => link,
    };
    assert_eq!(rt; link.gives.len(), 1);
    assert_eq!(rt; link.calls, 0);
    Ok(())
}
