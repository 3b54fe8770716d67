//! The index of a script.

ghost use Rattle.std.specs.Prelude.{◌≡◌, ℕ, IfOk, OnOk, is_some};
ghost use Rattle.line_model.specs.Lines.{Script, script_of, loses_up, loses_down, repeats_up, repeats_down, drops, loses_to, loses_from, repeats_to, wears, closes, cuts, is_off, is_standard, refuses, or_later, status_at};
ghost use Rattle.std.specs.Ordering.{nat_cmp};
ghost use Rattle.std.specs.BTreeMap.{get};
ghost use Rattle.script_index.specs.Places.{value_in, value_at};
ghost use Rattle.script_index.specs.Stands.{StandsFor, place_cmp};
ghost use Rattle.script_index.specs.declared.place.Place.{Place};

use crate::place::{Kind, Place, placed};
use knx_model::{IndAddr, NoMemory, ScriptLine, ScriptWhat};
use std::alloc::Global;
use std::collections::BTreeMap;

/// What a script says of each place.
#[derive(Drop)]
pub struct ScriptIndex {
    /// The places that are named; of a cut with the number of octets that are new.
    places: BTreeMap<Place, u32>,
    /// The status of each connect request that is refused.
    refused: BTreeMap<u64, u8>,
}

/// Enters a place over what a later line says of it. At `Err` it may or may not be entered.
fn enter_place(
    places: &mut BTreeMap<Place, u32>,
    said: Option<(Place, u32)>,
) -> Result<(), NoMemory>
    ensures { OnOk result ((q : Place) → get place_cmp places.new q ≡ or_later (value_in q said) (get place_cmp places.old q)) }
{
    match said {
        Some((place, value)) => {
            places.insert(place, value)?;
            Ok(())
        }
        None => Ok(()),
    }
}

/// Enters the connect request that a line refuses over what a later line says of it.
fn enter_refused(refused: &mut BTreeMap<u64, u8>, what: &ScriptWhat) -> Result<(), NoMemory>
    ensures { OnOk result ((n : ℕ) → get nat_cmp refused.new n ≡ or_later (status_at n what.now) (get nat_cmp refused.old n)) }
{
    if let ScriptWhat::Refuse { n, status } = what {
        refused.insert(u64::from(*n), *status)?;
    }
    Ok(())
}

/// The places that the lines name. The last line is entered first, so that the earlier one holds.
fn places_of(alloc: Global, lines: &[ScriptLine]) -> Result<BTreeMap<Place, u32>, NoMemory>
    ensures { IfOk result (λ places. (q : Place) → get place_cmp places q ≡ value_at q (script_of lines.now)) }
{
    let mut places = BTreeMap::new(alloc);
    let mut at = lines.len();
    while at > 0 {
        at -= 1;
        enter_place(&mut places, placed(&lines[at].what))?;
    }
    Ok(places)
}

/// The connect requests that the lines refuse, the same way.
fn refused_of(alloc: Global, lines: &[ScriptLine]) -> Result<BTreeMap<u64, u8>, NoMemory>
    ensures { IfOk result (λ refused. (n : ℕ) → get nat_cmp refused n ≡ refuses (script_of lines.now) n) }
{
    let mut refused = BTreeMap::new(alloc);
    let mut at = lines.len();
    while at > 0 {
        at -= 1;
        enter_refused(&mut refused, &lines[at].what)?;
    }
    Ok(refused)
}

impl ScriptIndex {
    /// The index of these lines.
    pub fn new(alloc: Global, lines: &[ScriptLine]) -> Result<ScriptIndex, NoMemory>
        ensures { IfOk result (λ index. StandsFor index (script_of lines.now)) }
    {
        let places = places_of(alloc, lines)?;
        let refused = refused_of(alloc, lines)?;
        Ok(ScriptIndex { places, refused })
    }

    /// Whether some line names the place.
    fn is_said(&self, place: Place) -> bool
        ensures { (script : Script) → StandsFor self.now script → result ≡ is_some (value_at place script) }
    {
        self.places.contains_key(&place)
    }

    /// Whether the n-th datagram that the client sends is lost.
    pub fn loses_up(&self, n: u64) -> bool
        ensures { (script : Script) → StandsFor self.now script → result ≡ loses_up script n }
    {
        self.is_said(Place::new(Kind::LoseUp, 0, n))
    }

    /// Whether the n-th datagram that the gateway sends is lost.
    pub fn loses_down(&self, n: u64) -> bool
        ensures { (script : Script) → StandsFor self.now script → result ≡ loses_down script n }
    {
        self.is_said(Place::new(Kind::LoseDown, 0, n))
    }

    /// Whether the n-th datagram that the client sends is delivered twice in a row.
    pub fn repeats_up(&self, n: u64) -> bool
        ensures { (script : Script) → StandsFor self.now script → result ≡ repeats_up script n }
    {
        self.is_said(Place::new(Kind::RepeatUp, 0, n))
    }

    /// Whether the n-th datagram that the gateway sends is delivered twice in a row.
    pub fn repeats_down(&self, n: u64) -> bool
        ensures { (script : Script) → StandsFor self.now script → result ≡ repeats_down script n }
    {
        self.is_said(Place::new(Kind::RepeatDown, 0, n))
    }

    /// Whether the gateway closes the channel after the n-th tunnelling request that it acted on.
    pub fn drops(&self, n: u64) -> bool
        ensures { (script : Script) → StandsFor self.now script → result ≡ drops script n }
    {
        self.is_said(Place::new(Kind::DropChannel, 0, n))
    }

    /// Whether the n-th frame on the bus for the device alone is lost for it.
    pub fn loses_to(&self, device: IndAddr, n: u64) -> bool
        ensures { (script : Script) → StandsFor self.now script → result ≡ loses_to script device.raw n }
    {
        self.is_said(Place::new(Kind::LoseTo, device.raw, n))
    }

    /// Whether the n-th frame that the device sends is lost for the gateway.
    pub fn loses_from(&self, device: IndAddr, n: u64) -> bool
        ensures { (script : Script) → StandsFor self.now script → result ≡ loses_from script device.raw n }
    {
        self.is_said(Place::new(Kind::LoseFrom, device.raw, n))
    }

    /// Whether the device gets the n-th frame for it alone twice in a row.
    pub fn repeats_to(&self, device: IndAddr, n: u64) -> bool
        ensures { (script : Script) → StandsFor self.now script → result ≡ repeats_to script device.raw n }
    {
        self.is_said(Place::new(Kind::RepeatTo, device.raw, n))
    }

    /// Whether the device's n-th write is worn.
    pub fn wears(&self, device: IndAddr, n: u64) -> bool
        ensures { (script : Script) → StandsFor self.now script → result ≡ wears script device.raw n }
    {
        self.is_said(Place::new(Kind::Worn, device.raw, n))
    }

    /// Whether the device closes its connection after the n-th frame for it alone that it took.
    pub fn closes(&self, device: IndAddr, n: u64) -> bool
        ensures { (script : Script) → StandsFor self.now script → result ≡ closes script device.raw n }
    {
        self.is_said(Place::new(Kind::CloseAfter, device.raw, n))
    }

    /// How many octets of the device's n-th write are new, where it is cut.
    pub fn cuts(&self, device: IndAddr, n: u64) -> Option<u32>
        ensures { (script : Script) → StandsFor self.now script → result ≡ cuts script device.raw n }
    {
        self.places
            .get(&Place::new(Kind::Cut, device.raw, n))
            .copied()
    }

    /// Whether the device is without power for the whole run.
    pub fn is_off(&self, device: IndAddr) -> bool
        ensures { (script : Script) → StandsFor self.now script → result ≡ is_off script device.raw }
    {
        self.is_said(Place::new(Kind::Off, device.raw, 0))
    }

    /// Whether the device takes no extended frame.
    pub fn is_standard(&self, device: IndAddr) -> bool
        ensures { (script : Script) → StandsFor self.now script → result ≡ is_standard script device.raw }
    {
        self.is_said(Place::new(Kind::Standard, device.raw, 0))
    }

    /// The status with which the n-th connect request that reaches the gateway is refused.
    pub fn refuses(&self, n: u64) -> Option<u8>
        ensures { (script : Script) → StandsFor self.now script → result ≡ refuses script n }
    {
        self.refused.get(&n).copied()
    }
}
