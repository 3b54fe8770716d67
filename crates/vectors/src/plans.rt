//! Operations of the load plan and the check plan.

ghost use Rattle.std.specs.Prelude.{◌≤◌, length, IfOk};
ghost use Rattle.knx_model.specs.Device.{Fits};

use download_plan::{CheckPlan, LoadPlan, suits};
use knx_model::{ApduOctets, Expect, Image, NoMemory, Octets, Op, PlanSource};
use std::alloc::Global;
use std::test::Fail;

/// Three tables of one piece, and 61 octets of parameters: six pieces of 12 octets, two of 60.
fn image(alloc: Global) -> Result<Image, NoMemory>
    ensures { IfOk result (λ image. Fits image) }
{
    let addr = Octets::from_slice(alloc, &[0x00, 0x02, 0x00, 0x01, 0x0A, 0x03])?;
    let assoc = Octets::from_slice(
        alloc,
        &[0x00, 0x02, 0x00, 0x02, 0x00, 0x01, 0x00, 0x01, 0x00, 0x02],
    )?;
    let objs = Octets::from_slice(alloc, &[0x00, 0x02, 0x57, 0x00, 0x17, 0x00])?;
    let params = Octets::from_slice(alloc, &[0xA5; 61])?;
    Ok(Image {
        addr,
        assoc,
        objs,
        params,
    })
}

/// The answer to the read of the greatest length of an APDU.
fn length_answer(length: u8) -> [u8; 8] {
    [0x03, 0xD6, 0x00, 0x38, 0x10, 0x01, 0x00, length]
}

fn op_at<P: PlanSource>(plan: &P, k: u32) -> Option<Op> {
    if k < plan.len() {
        Some(plan.op(k))
    } else {
        None
    }
}

fn sent(apdu: &[u8], expect: Expect) -> Option<Op>
    requires { length apdu.now ≤ 64 }
{
    Some(Op {
        apdu: ApduOctets::from_slice(apdu),
        expect,
    })
}

fn answer(octets: &[u8]) -> Expect
    requires { length octets.now ≤ 64 }
{
    Expect::Is(ApduOctets::from_slice(octets))
}

#[test]
fn operations_of_a_load(rt: HostRuntime) -> Result<(), Fail> {
    let image = image(rt.alloc()).ok().ok_or("an image")?;
    let mut plan = LoadPlan::of(image);
    assert_eq!(rt; plan.image().params.len(), 61);
    assert_eq!(rt; plan.len(), 41);
    let descriptor = answer(&[0x03, 0x40, 0x07, 0xB0]);
    assert_eq!(rt; op_at(&plan, 0), sent(&[0x03, 0x00], descriptor));
    let length = sent(&[0x03, 0xD5, 0x00, 0x38, 0x10, 0x01], Expect::Note);
    assert_eq!(rt; op_at(&plan, 1), length);
    let unload = [
        0x03, 0xD7, 0x04, 0x05, 0x10, 0x01, 0x04, 0, 0, 0, 0, 0, 0, 0, 0, 0,
    ];
    let unloaded = answer(&[0x03, 0xD6, 0x04, 0x05, 0x10, 0x01, 0x00]);
    assert_eq!(rt; op_at(&plan, 2), sent(&unload, unloaded));
    let write = [0x02, 0x86, 0x40, 0x00, 0x00, 0x02, 0x00, 0x01, 0x0A, 0x03];
    assert_eq!(rt; op_at(&plan, 7), sent(&write, Expect::AckOnly));
    let read = answer(&[0x02, 0x46, 0x40, 0x00, 0x00, 0x02, 0x00, 0x01, 0x0A, 0x03]);
    assert_eq!(rt; op_at(&plan, 8), sent(&[0x02, 0x06, 0x40, 0x00], read));
    plan.note(1, &length_answer(63));
    assert_eq!(rt; plan.len(), 33);
    let last = answer(&[0x02, 0x41, 0x80, 0x3C, 0xA5]);
    assert_eq!(rt; op_at(&plan, 31), sent(&[0x02, 0x01, 0x80, 0x3C], last));
    plan.note(1, &length_answer(62));
    assert_eq!(rt; plan.len(), 41);
    Ok(())
}

#[test]
fn operations_of_a_check(rt: HostRuntime) -> Result<(), Fail> {
    let image = image(rt.alloc()).ok().ok_or("an image")?;
    let mut plan = CheckPlan::of(image);
    assert_eq!(rt; plan.image().params.len(), 61);
    plan.note(1, &length_answer(63));
    assert_eq!(rt; plan.len(), 19);
    let loaded = answer(&[0x03, 0xD6, 0x01, 0x05, 0x10, 0x01, 0x01]);
    let state = [0x03, 0xD5, 0x01, 0x05, 0x10, 0x01];
    assert_eq!(rt; op_at(&plan, 2), sent(&state, loaded));
    let end = answer(&[0x02, 0x40, 0x80, 0x3D]);
    assert_eq!(rt; op_at(&plan, 18), sent(&[0x02, 0x01, 0x80, 0x3D], end));
    Ok(())
}

#[test]
fn what_suits(rt: HostRuntime) {
    let asked = [0x03, 0xD5, 0x00, 0x38, 0x10, 0x01];
    let fitting = Some(ApduOctets::from_slice(&length_answer(15)));
    let other = Some(ApduOctets::from_slice(&[0x03, 0x40, 0x07, 0xB0]));
    assert!(rt; suits(&asked, &Expect::Note, &fitting));
    assert!(rt; !suits(&asked, &Expect::Note, &other));
    assert!(rt; !suits(&asked, &Expect::AckOnly, &fitting));
}
