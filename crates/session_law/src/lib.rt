//! The law of numbered connections: what both ends promise together, over an ordered bus that loses and repeats frames, with a device that loses
//! its power, at every moment of every run.
#![tactic(auto)]

mod runs;

ghost use Rattle.std.specs.Prelude.{◌≡◌, List};
ghost use Rattle.knx_model.specs.declared.address.IndAddr.{IndAddr as Address};
ghost use Rattle.knx_model.specs.DeviceConnection.{Closed};
ghost use Rattle.knx_model.specs.DeviceState.{DeviceState};
ghost use Rattle.session_law.specs.World.{World, fresh};
ghost use Rattle.session_law.specs.Events.{Event, replay, IsLegal, AtEveryMoment};
ghost use Rattle.session_law.specs.Promises.{InOrder, ActsOnNext, TakesNoConnect, ActsOnNothing};

pub use runs::{a_descriptor_is_read_through_losses, one_frame_at_a_time};

/// Since the last T_Connect whose confirmation without error the client took, the services that the device delivered are the first of those which
/// the client sent, each once, and the answers that the client accepted are the first of those which the device gave.
pub fn sessions_are_in_order()
    ensures { (me : Address) (d : DeviceState) (events : List Event) → IsLegal (fresh me d) events → AtEveryMoment (λ past. InOrder (replay (fresh me d) past)) events }
{}

/// Whatever the device acts on next, whole, torn or worn, is the first service that the client sent and that isn't delivered.
pub fn the_next_service_is_acted_on()
    ensures { (me : Address) (d : DeviceState) (events : List Event) → IsLegal (fresh me d) events → AtEveryMoment (λ past. ActsOnNext (replay (fresh me d) past)) events }
{}

/// A device that has no connection acts on no service until it takes its next T_Connect, and has none until then.
pub fn a_closed_device_acts_on_nothing()
    ensures nothing { (w : World) (events : List Event) → w.device.connection ≡ Closed → TakesNoConnect w events → ActsOnNothing w events }
    ensures closed { (w : World) (events : List Event) → w.device.connection ≡ Closed → TakesNoConnect w events → (replay w events).device.connection ≡ Closed }
{}
