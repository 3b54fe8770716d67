//! The law of group telegrams on the line: what each does to the devices that get it.
#![tactic(auto)]

ghost use Rattle.std.specs.Prelude.{List};
ghost use Rattle.line_model.specs.World.{World, Event};
ghost use Rattle.line_model.specs.Telegrams.{TelegramsActRight, ActsByImage};

/// Whenever a device with power gets a group telegram, whatever happened before: where it doesn't run, values and unsent frames stay; else
/// exactly the objects that the configuration which it runs links to the group, with the right flags and form, take the value, all others
/// keep theirs, and exactly the answering object's value joins its unsent frames.
pub fn telegrams_act_right()
    ensures { (start : World) (events : List Event) → TelegramsActRight ActsByImage start events }
{}
