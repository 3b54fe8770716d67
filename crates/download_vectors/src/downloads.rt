//! A downloader driven by hand: through its endings, and through a whole load.

ghost use Rattle.std.specs.Prelude.{IfOk};
ghost use Rattle.knx_model.specs.Device.{Fits};

use download_core::{Did, Downloader};
use knx_model::{Image, IndAddr, NoMemory, Octets, Sign};
use std::alloc::Global;

mod endings;
mod load;

const DEVICE: IndAddr = IndAddr { raw: 0x1105 };

const CONNECT: &[u8] = &[0x80];

const DISCONNECT: &[u8] = &[0x81];

/// What a downloader is told, or that it steps and what that shows.
#[derive(Clone, Copy, Drop)]
enum Row {
    Confirmed,
    NoCon,
    Heard(&'static [u8]),
    Lost,
    Steps(Shows),
}

/// What a step shows.
#[derive(Clone, Copy, Drop)]
enum Shows {
    Sends(&'static [u8]),
    Waits,
    Done,
    Failed(Sign, Sign, Sign),
    Refused(u32, &'static [u8], &'static [u8]),
}

fn is_sign(sign: Sign, wanted: Sign) -> bool {
    match (sign, wanted) {
        (Sign::Silent { ms }, Sign::Silent { ms: wanted }) => ms == wanted,
        (Sign::Closed, Sign::Closed)
        | (Sign::NoCon, Sign::NoCon)
        | (Sign::TunnelLost, Sign::TunnelLost) => true,
        _ => false,
    }
}

fn is_shown(did: &Did, wanted: Shows) -> bool {
    match (did, wanted) {
        (Did::Send(tpdu), Shows::Sends(octets)) => tpdu.as_slice() == octets,
        (Did::Wait, Shows::Waits) | (Did::Done, Shows::Done) => true,
        (Did::Failed { signs }, Shows::Failed(first, second, third)) => {
            let [one, two, three] = signs;
            is_sign(*one, first) && is_sign(*two, second) && is_sign(*three, third)
        }
        (Did::Refused { op, got, expected }, Shows::Refused(number, octets, others)) => {
            *op == number && got.as_slice() == octets && expected.as_slice() == others
        }
        _ => false,
    }
}

/// Whether a step shows this, and `next` before it.
fn steps(downloader: &mut Downloader, now: u64, wanted: Shows) -> bool {
    let next = downloader.next(now);
    let did = downloader.step(now);
    is_shown(&next, wanted) && is_shown(&did, wanted)
}

/// Takes a row in, and tells whether what it shows is as it is wanted.
fn takes(downloader: &mut Downloader, now: u64, row: Row) -> bool {
    downloader.expire(now);
    match row {
        Row::Confirmed => downloader.confirmed(false, now),
        Row::NoCon => downloader.confirmed(true, now),
        Row::Heard(tpdu) => downloader.take(tpdu, now),
        Row::Lost => downloader.tunnel_lost(),
        Row::Steps(wanted) => return steps(downloader, now, wanted),
    }
    true
}

/// An image with empty tables, and with one octet of parameters.
fn image(alloc: Global) -> Result<Image, NoMemory>
    ensures { IfOk result (λ image. Fits image) }
{
    let addr = Octets::from_slice(alloc, &[])?;
    let assoc = Octets::from_slice(alloc, &[])?;
    let objs = Octets::from_slice(alloc, &[])?;
    let params = Octets::from_slice(alloc, &[0x2A])?;
    Ok(Image {
        addr,
        assoc,
        objs,
        params,
    })
}
