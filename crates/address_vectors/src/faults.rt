//! What is told where no outcome is known: over links of fixed data.

ghost use Rattle.std.specs.Prelude.{◌≡◌, [], IfOk};

use address_commission::{AssignFault, Plain, Try, assign};
use address_world::IndAddr;
use line_fixed::{FixedLink, List, NoMemory, Octets};
use std::alloc::Global;
use std::test::Fail;

/// What a link gives in turn, which of its calls fail, and what is told.
struct Row {
    gives: &'static [&'static [u8]],
    fails: &'static [u64],
    told: Told,
}

/// What is told.
#[derive(Clone, Copy, Drop, PartialEq, Eq)]
enum Told {
    Outcome,
    Lost,
    Failed,
    /// No channel, as all are taken, three times.
    AllTaken,
    /// No channel, as nobody answers, three times.
    Silent,
    Other,
}

/// A channel, the first one, of a tunnel with the address 1.1.255.
const CONNECTED: &[u8] = &[
    0x06, 0x10, 0x02, 0x06, 0x00, 0x14, 0x01, 0x00, 0x08, 0x01, 0xC0, 0xA8, 0x01, 0x09, 0x0E, 0x57,
    0x04, 0x04, 0x11, 0xFF,
];

/// There is none: all are taken.
const ALL_TAKEN: &[u8] = &[0x06, 0x10, 0x02, 0x06, 0x00, 0x08, 0x00, 0x24];

/// The gateway ends the first channel.
const ENDED: &[u8] = &[
    0x06, 0x10, 0x02, 0x09, 0x00, 0x10, 0x01, 0x00, 0x08, 0x01, 0xC0, 0xA8, 0x01, 0x09, 0x0E, 0x57,
];

const ROWS: [Row; 6] = [
    Row {
        gives: &[CONNECTED, ENDED],
        fails: &[],
        told: Told::Lost,
    },
    // Nothing is acknowledged.
    Row {
        gives: &[CONNECTED],
        fails: &[],
        told: Told::Lost,
    },
    Row {
        gives: &[],
        fails: &[1],
        told: Told::Failed,
    },
    // A call in the talk fails.
    Row {
        gives: &[CONNECTED],
        fails: &[4],
        told: Told::Failed,
    },
    Row {
        gives: &[ALL_TAKEN, ALL_TAKEN, ALL_TAKEN],
        fails: &[],
        told: Told::AllTaken,
    },
    Row {
        gives: &[],
        fails: &[],
        told: Told::Silent,
    },
];

/// A link that gives these datagrams and then none, of which the calls with these numbers fail.
fn link_of(alloc: Global, rows: &[&[u8]], fails: &[u64]) -> Result<FixedLink, NoMemory>
    ensures { IfOk result (λ link. link.entries ≡ []) }
{
    let mut gives = List::new(alloc);
    for octets in rows {
        gives.push(Octets::from_slice(alloc, *octets)?)?;
    }
    let fails = List::from_vec(Vec::from_slice(alloc, fails)?);
    Ok(FixedLink::new(alloc, gives, None, fails))
}

/// What three tries for a channel are.
fn told_of(tries: &[Try; 3]) -> Told {
    if tries.iter().all(|one| matches!(one, Try::Status(0x24))) {
        Told::AllTaken
    } else if tries.iter().all(|one| matches!(one, Try::NoAnswer)) {
        Told::Silent
    } else {
        Told::Other
    }
}

#[test]
fn each_fault_is_told(rt: HostRuntime) -> Result<(), Fail> {
    for row in &ROWS {
        let link = link_of(rt.alloc(), row.gives, row.fails)?;
        let (_, ends) = assign(&rt, Plain::new(link), IndAddr { raw: 0x1114 });
        let told = match ends {
            Ok(_) => Told::Outcome,
            Err(AssignFault::TunnelLost) => Told::Lost,
            Err(AssignFault::LinkFailed) => Told::Failed,
            Err(AssignFault::GatewayRefused(tries)) => told_of(&tries),
            Err(_) => Told::Other,
        };
        assert!(rt; told == row.told);
    }
    Ok(())
}
