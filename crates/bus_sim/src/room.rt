//! Room for what comes next, taken before anything changes.

ghost use Rattle.std.specs.Prelude.{◌≡◌, ◌≤◌, ◌^◌, ◌<◌, ◌+◌, length, OnOk};

use crate::events::Events;
use crate::owed::Owing;
use knx_model::NoMemory;

/// Takes room for one more event, and memory for what it may call for.
pub fn make_room(events: &mut Events, owed: &mut Owing) -> Result<(), NoMemory>
    ensures events { events.new.list ≡ events.old.list }
    ensures owed { owed.new.list ≡ owed.old.list }
    ensures room { OnOk result (1 ≤ events.new.room) }
    ensures owed_room { OnOk result (2 ≤ owed.new.room) }
    ensures few { OnOk result (length events.old.list + 1 < 2 ^ 63) }
{
    make_room_for(events, owed, 1)
}

/// The same for so many events, of which one calls for something. No vector has room for 2^63 events.
pub fn make_room_for(events: &mut Events, owed: &mut Owing, more: usize) -> Result<(), NoMemory>
    ensures events { events.new.list ≡ events.old.list }
    ensures owed { owed.new.list ≡ owed.old.list }
    ensures room { OnOk result (more ≤ events.new.room) }
    ensures owed_room { OnOk result (2 ≤ owed.new.room) }
    ensures few { OnOk result (length events.old.list + more < 2 ^ 63) }
{
    events.reserve(more)?;
    owed.reserve()?;
    Ok(())
}
