//! What a service does to a device.

ghost use Rattle.std.specs.Prelude.{◌≡◌, ℕ, IfOk, take};
ghost use Rattle.knx_model.specs.Device.{is_load_control, load_asked, object_of_index, effect_of, front_of_load, written_front};
ghost use Rattle.knx_model.specs.DeviceFrames.{AreOctets, worn_octets};
ghost use Rattle.device_sim.specs.Effects.{meant};

use crate::memory_map::object_of_index;
use crate::wear::complements;
use knx_model::{
    Apdu, ApduOctets, LOAD_CONTROL, LoadEvent, LoadableObject, NoMemory, Octets, front,
};
use load_machine::load_event;
use std::alloc::Global;

/// What a service does to a device: a load event of an object, octets that are stored from an address on, or nothing.
#[derive(Drop)]
pub enum Effect {
    Loads(LoadableObject, LoadEvent),
    Stores { address: u16, octets: ApduOctets },
    Nothing,
}

/// Whether a property write is one of load control.
pub fn is_load_control(property: u8, count: u8, start: u16, octets: &[u8]) -> bool
    ensures { result ≡ is_load_control property count start octets.now }
{
    property == LOAD_CONTROL && count == 1 && start == 1 && octets.len() == 10
}

fn loads(index: u8, octets: &[u8]) -> Effect
    ensures { meant result ≡ load_asked (object_of_index index) octets.now }
{
    match object_of_index(index) {
        Some(object) => Effect::Loads(object, load_event(octets)),
        None => Effect::Nothing,
    }
}

/// What a service does.
pub fn effect_of(apdu: &Apdu) -> Effect
    ensures { meant result ≡ effect_of apdu.now }
{
    match apdu {
        Apdu::MemoryWrite { address, octets } => Effect::Stores {
            address: *address,
            octets: octets.copied(),
        },
        Apdu::PropertyWrite {
            object,
            property,
            count,
            start,
            octets,
        } if is_load_control(*property, *count, *start, octets.as_slice()) => {
            loads(*object, octets.as_slice())
        }
        _ => Effect::Nothing,
    }
}

/// The first `k` octets that an effect writes to memory.
pub fn front_of(alloc: Global, effect: &Effect, k: u32) -> Result<Octets, NoMemory>
    ensures { IfOk result (λ octets. octets ≡ written_front (meant effect.now) k) }
{
    match effect {
        Effect::Loads(_, LoadEvent::Allocate { size, fill }) => {
            let fill = vec![in alloc; *fill; k.min(*size) as usize]?;
            Ok(Octets::from_vec(fill))
        }
        Effect::Stores { octets, .. } => {
            Octets::from_slice(alloc, front(octets.as_slice(), k as usize))
        }
        _ => Ok(Octets::new(alloc)),
    }
}

/// The octets that worn memory keeps of an effect: of a memory write the complement of each.
pub fn worn_octets(effect: &Effect) -> ApduOctets
    ensures { result ≡ worn_octets (meant effect.now) }
{
    match effect {
        Effect::Stores { octets, .. } => complements(octets.as_slice()),
        Effect::Loads(_, _) | Effect::Nothing => ApduOctets::new(),
    }
}

/// What an effect writes are octets: of a memory write those that are sent, of an allocation its fill. It does nothing.
#[tactic(auto, using(crate::proofs::Fronts::front_octets, crate::proofs::Fronts::filled_octets))]
pub fn writes_octets(effect: &Effect)
    ensures { (k : ℕ) → AreOctets (written_front (meant effect.now) k) }
{
    match effect {
        Effect::Loads(_, event) => fills_octets(event),
        Effect::Stores { octets, .. } => are_octets(octets.as_slice()),
        Effect::Nothing => {}
    }
}

/// The fill of an allocation is an octet. It does nothing.
#[tactic(auto, using(crate::proofs::Fronts::filled_octets))]
fn fills_octets(event: &LoadEvent)
    ensures { (k : ℕ) → AreOctets (front_of_load event.now k) }
{
    match event {
        LoadEvent::Allocate { fill, .. } => {
            // The proof knows the range of a value once it is read.
            let _fill = *fill;
        }
        _ => {}
    }
}

/// The items of a slice of octets are octets. It does nothing.
fn are_octets(octets: &[u8])
    ensures { (k : ℕ) → AreOctets (take k octets.now) }
{
    // The proof knows the range of the items once they are read.
    let _octets = octets;
}
