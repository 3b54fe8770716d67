//! What the script calls for after an event.

ghost use Rattle.std.specs.Prelude.{◌≡◌, nat_lt, ◌&&◌};
ghost use Rattle.line_model.specs.Lines.{Script, closes, drops, repeats_down, repeats_to, repeats_up};
ghost use Rattle.line_model.specs.Owed as model;
ghost use Rattle.line_model.specs.Owed.{owed_if};
ghost use Rattle.script_index.specs.Stands.{StandsFor};
ghost use Rattle.bus_sim.specs.Owing.{meant_if};

use crate::owed::Owed;
use knx_model::IndAddr;
use script_index::ScriptIndex;

/// The client's datagram of a number came: it comes twice in a row where a line says so.
pub fn comes_again(index: &ScriptIndex, number: u64) -> Option<Owed>
    ensures { (script : Script) → StandsFor index.now script → meant_if result ≡ owed_if (repeats_up script number) (model.DeliverAgain number) }
{
    if index.repeats_up(number) {
        Some(Owed::DeliverAgain(number))
    } else {
        None
    }
}

/// The client got the gateway's datagram of a number.
pub fn reaches_again(index: &ScriptIndex, number: u64) -> Option<Owed>
    ensures { (script : Script) → StandsFor index.now script → meant_if result ≡ owed_if (repeats_down script number) (model.ReachAgain number) }
{
    if index.repeats_down(number) {
        Some(Owed::ReachAgain(number))
    } else {
        None
    }
}

/// The gateway had acted on so many requests before, and on so many after.
pub fn channel_closes(index: &ScriptIndex, before: u64, after: u64) -> Option<Owed>
    ensures { (script : Script) → StandsFor index.now script → meant_if result ≡ owed_if (nat_lt before after && drops script after) model.ChannelCloses }
{
    if before < after && index.drops(after) {
        Some(Owed::ChannelCloses)
    } else {
        None
    }
}

/// The n-th frame for a device alone came, which took it or not.
pub fn frame_again(index: &ScriptIndex, device: u16, taken: bool, n: u64) -> Option<Owed>
    ensures { (script : Script) → StandsFor index.now script → meant_if result ≡ owed_if (taken && repeats_to script device n) (model.BringAgain device) }
{
    if taken && index.repeats_to(IndAddr { raw: device }, n) {
        Some(Owed::BringAgain(device))
    } else {
        None
    }
}

/// A frame for a device alone came; where it took it, it was the n-th that it took.
pub fn connection_closes(index: &ScriptIndex, device: u16, taken: bool, n: u64) -> Option<Owed>
    ensures { (script : Script) → StandsFor index.now script → meant_if result ≡ owed_if (taken && closes script device n) (model.ConnectionCloses device) }
{
    if taken && index.closes(IndAddr { raw: device }, n) {
        Some(Owed::ConnectionCloses(device))
    } else {
        None
    }
}
