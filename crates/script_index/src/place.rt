//! The places that lines of a script name.

ghost use Rattle.std.specs.Prelude.{◌≡◌};
ghost use Rattle.script_index.specs.Places.{place, placed};

use knx_model::ScriptWhat;

/// What happens at a place.
#[derive(Clone, Copy)]
pub enum Kind {
    LoseUp,
    LoseDown,
    RepeatUp,
    RepeatDown,
    DropChannel,
    LoseTo,
    LoseFrom,
    RepeatTo,
    Worn,
    CloseAfter,
    Cut,
    Off,
    Standard,
}

/// A place: what happens there, at which device, and at its n-th datagram, frame or write; 0 where the kind has none.
#[derive(Clone, Copy, PartialEq, Eq, PartialOrd, Ord)]
pub struct Place {
    /// The `Kind` as a number, by which places are sorted.
    kind: u8,
    device: u16,
    n: u64,
}

impl Place {
    /// The place of a kind.
    pub fn new(kind: Kind, device: u16, n: u64) -> Place
        ensures { result ≡ place kind device n }
    {
        Place {
            kind: kind as u8,
            device,
            n,
        }
    }
}

/// The place that a line names, and what it says beside it: of a cut how many octets are new, else 0. A refused connect request and a group
/// telegram are no places.
pub fn placed(what: &ScriptWhat) -> Option<(Place, u32)>
    ensures { result ≡ placed what.now }
{
    match what {
        ScriptWhat::LoseUp(n) => Some((Place::new(Kind::LoseUp, 0, u64::from(*n)), 0)),
        ScriptWhat::LoseDown(n) => Some((Place::new(Kind::LoseDown, 0, u64::from(*n)), 0)),
        ScriptWhat::RepeatUp(n) => Some((Place::new(Kind::RepeatUp, 0, u64::from(*n)), 0)),
        ScriptWhat::RepeatDown(n) => Some((Place::new(Kind::RepeatDown, 0, u64::from(*n)), 0)),
        ScriptWhat::DropChannel(n) => Some((Place::new(Kind::DropChannel, 0, u64::from(*n)), 0)),
        ScriptWhat::LoseTo(device, n) => Some((
            Place::new(Kind::LoseTo, device.raw, u64::from(*n)),
            0,
        )),
        ScriptWhat::LoseFrom(device, n) => Some((
            Place::new(Kind::LoseFrom, device.raw, u64::from(*n)),
            0,
        )),
        ScriptWhat::RepeatTo(device, n) => Some((
            Place::new(Kind::RepeatTo, device.raw, u64::from(*n)),
            0,
        )),
        ScriptWhat::Worn(device, n) => Some((Place::new(Kind::Worn, device.raw, u64::from(*n)), 0)),
        ScriptWhat::CloseAfter(device, n) => Some((
            Place::new(Kind::CloseAfter, device.raw, u64::from(*n)),
            0,
        )),
        ScriptWhat::Cut { device, n, k } => Some((
            Place::new(Kind::Cut, device.raw, u64::from(*n)),
            *k,
        )),
        ScriptWhat::Off(device) => Some((Place::new(Kind::Off, device.raw, 0), 0)),
        ScriptWhat::Standard(device) => Some((Place::new(Kind::Standard, device.raw, 0), 0)),
        ScriptWhat::Refuse { .. } | ScriptWhat::Group { .. } => None,
    }
}
