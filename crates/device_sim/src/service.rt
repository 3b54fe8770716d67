//! What octets with transport bits 0 ask a device to do.

ghost use Rattle.std.specs.Prelude.{◌≡◌, IfOk};
ghost use Rattle.knx_model.specs.Device.{effect_in, written_front};
ghost use Rattle.device_sim.specs.Effects.{meant};

use crate::effect::{Effect, effect_of, front_of};
use apdu_frames::service_in;
use knx_model::{NoMemory, Octets};
use std::alloc::Global;

/// What the service does that the octets ask for.
pub fn effect_in(octets: &[u8]) -> Effect
    ensures { meant result ≡ effect_in octets.now }
{
    match service_in(octets) {
        Some(apdu) => effect_of(&apdu),
        None => Effect::Nothing,
    }
}

/// The octets that stand new in memory where power is cut after the first `k` written ones.
pub fn written_front(alloc: Global, apdu: &[u8], k: u32) -> Result<Octets, NoMemory>
    ensures { IfOk result (λ octets. octets ≡ written_front (effect_in apdu.now) k) }
{
    front_of(alloc, &effect_in(apdu), k)
}
