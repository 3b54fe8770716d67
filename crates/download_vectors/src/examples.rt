//! The example that stands on the page of the downloader's crate, with what comes of it.

ghost use Rattle.knx_model.specs.Device.{Fits};

use download_core::{Did, Downloader, JobPlan, LoadPlan};
use knx_model::{Image, IndAddr, Octets};
use std::test::Fail;

/// A load goes on until a frame is to be sent: with T_Connect at 0 ms, and when that is confirmed at 20 ms, with the first operation of the plan.
fn first_frames(device: IndAddr, image: Image) -> (Did, Did)
    requires { Fits image }
{
    let mut downloader = Downloader::new(device, JobPlan::Load(LoadPlan::of(image)));
    let connect = downloader.step(0);
    downloader.confirmed(false, 20);
    (connect, downloader.step(20))
}

#[test]
fn a_load_begins(rt: HostRuntime) -> Result<(), Fail> {
    let alloc = rt.alloc();
    let image = Image {
        addr: Octets::from_slice(alloc, &[])?,
        assoc: Octets::from_slice(alloc, &[])?,
        objs: Octets::from_slice(alloc, &[])?,
        params: Octets::from_slice(alloc, &[])?,
    };
    let (connect, read) = first_frames(IndAddr { raw: 0x1105 }, image);
    match (connect, read) {
        (Did::Send(connect), Did::Send(read)) => {
            assert_eq!(rt; connect.as_slice(), b"\x80".as_slice());
            assert_eq!(rt; read.as_slice(), b"\x43\x00".as_slice());
        }
        _ => return Err("two frames".into()),
    }
    Ok(())
}
