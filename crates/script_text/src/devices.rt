//! The devices that lines name.

ghost use Rattle.std.specs.Prelude.{◌≡◌};
ghost use Rattle.knx_model.specs.ScriptText.{device_named, refused_unless_listed, first_stranger, strangers};

use knx_model::{IndAddr, Refused, ScriptLine, ScriptWhat, Why};

/// The device that a line names; none for a line that names none.
pub fn device_named(what: &ScriptWhat) -> Option<IndAddr>
    ensures { result ≡ device_named what.now }
{
    match *what {
        ScriptWhat::LoseTo(device, _)
        | ScriptWhat::LoseFrom(device, _)
        | ScriptWhat::RepeatTo(device, _)
        | ScriptWhat::Cut { device, .. }
        | ScriptWhat::Worn(device, _)
        | ScriptWhat::CloseAfter(device, _)
        | ScriptWhat::Off(device)
        | ScriptWhat::Standard(device) => Some(device),
        ScriptWhat::LoseUp(_)
        | ScriptWhat::LoseDown(_)
        | ScriptWhat::RepeatUp(_)
        | ScriptWhat::RepeatDown(_)
        | ScriptWhat::Refuse { .. }
        | ScriptWhat::DropChannel(_)
        | ScriptWhat::Group { .. } => None,
    }
}

/// The refusal of a line that names a device which isn't listed.
fn stranger(devices: &[IndAddr], line: &ScriptLine) -> Option<Refused>
    ensures { result ≡ refused_unless_listed devices.now line.now.line (device_named line.now.what) }
{
    let device = device_named(&line.what)?;
    if device.is_among(devices) {
        return None;
    }
    Some(Refused {
        line: line.line,
        why: Why::NoDevice,
    })
}

/// The refusal of the first line that names a device which isn't listed; none where each named device is listed.
#[tactic(auto, unfolding(knx_model::specs::ScriptText::strangers))]
pub fn first_stranger(devices: &[IndAddr], lines: &[ScriptLine]) -> Option<Refused>
    ensures { result ≡ first_stranger devices.now lines.now }
{
    for line in lines {
        if let Some(refused) = stranger(devices, line) {
            return Some(refused);
        }
    }
    None
}
