//! Numbers, addresses and flags as they are printed: alone, or as the next word of a line. Where memory is wanting, nothing is appended.

ghost use Rattle.std.specs.Prelude.{◌≡◌, ◌∷◌, IfOk, map};
ghost use Rattle.std.specs.Fmt.{decimal};
ghost use Rattle.std.specs.List.{join_with_byte};
ghost use Rattle.knx_model.specs.Addresses.{device_text, group_text};
ghost use Rattle.knx_model.specs.Flags.{flags_text};
ghost use Rattle.knx_model.specs.Outside.{Appends};

use crate::address::{GroupAddr, IndAddr};
use crate::lists::Octets;
use crate::no_memory::NoMemory;
use crate::words::flags::put_flags;
use std::alloc::Global;

/// Appends a number in decimal.
pub fn put_number(alloc: Global, out: &mut Octets, number: u64) -> Result<(), NoMemory>
    ensures { Appends (decimal number) out.old out.new result }
{
    let text = number.to_string(alloc)?;
    out.append(text.as_bytes())
}

/// Three numbers, apart by a mark.
fn three_numbers(alloc: Global, numbers: [u16; 3], mark: u8) -> Result<Octets, NoMemory>
    ensures { IfOk result (λ text. text ≡ join_with_byte mark (map decimal numbers)) }
{
    let [first, second, third] = numbers;
    let mut text = Octets::new(alloc);
    put_number(alloc, &mut text, u64::from(first))?;
    text.push(mark)?;
    put_number(alloc, &mut text, u64::from(second))?;
    text.push(mark)?;
    put_number(alloc, &mut text, u64::from(third))?;
    Ok(text)
}

/// Appends an individual address: three numbers apart by dots.
pub fn put_device(alloc: Global, out: &mut Octets, device: IndAddr) -> Result<(), NoMemory>
    ensures { Appends (device_text device) out.old out.new result }
{
    let numbers = [
        u16::from(device.area()),
        u16::from(device.line()),
        u16::from(device.device()),
    ];
    let text = three_numbers(alloc, numbers, b'.')?;
    out.append(text.as_slice())
}

/// Appends a group address: three numbers apart by slashes.
pub fn put_group(alloc: Global, out: &mut Octets, group: GroupAddr) -> Result<(), NoMemory>
    ensures { Appends (group_text group) out.old out.new result }
{
    let numbers = [group.raw >> 11, group.raw >> 8 & 0x07, group.raw & 0xFF];
    let text = three_numbers(alloc, numbers, b'/')?;
    out.append(text.as_slice())
}

/// Appends a word behind a space.
pub fn put_word(out: &mut Octets, word: &[u8]) -> Result<(), NoMemory>
    ensures { Appends (32 ∷ word.now) out.old out.new result }
{
    out.append_behind(b' ', word)
}

/// Appends a number in decimal behind a space.
pub fn put_number_word(alloc: Global, out: &mut Octets, number: u64) -> Result<(), NoMemory>
    ensures { Appends (32 ∷ decimal number) out.old out.new result }
{
    let text = number.to_string(alloc)?;
    put_word(out, text.as_bytes())
}

/// Appends an individual address behind a space.
pub fn put_device_word(alloc: Global, out: &mut Octets, device: IndAddr) -> Result<(), NoMemory>
    ensures { Appends (32 ∷ device_text device) out.old out.new result }
{
    let mut text = Octets::new(alloc);
    put_device(alloc, &mut text, device)?;
    put_word(out, text.as_slice())
}

/// Appends a group address behind a space.
pub fn put_group_word(alloc: Global, out: &mut Octets, group: GroupAddr) -> Result<(), NoMemory>
    ensures { Appends (32 ∷ group_text group) out.old out.new result }
{
    let mut text = Octets::new(alloc);
    put_group(alloc, &mut text, group)?;
    put_word(out, text.as_slice())
}

/// Appends the letters of a flag octet behind a space.
pub fn put_flags_word(alloc: Global, out: &mut Octets, flags: u8) -> Result<(), NoMemory>
    ensures { Appends (32 ∷ flags_text flags) out.old out.new result }
{
    let mut text = Octets::new(alloc);
    put_flags(&mut text, flags)?;
    put_word(out, text.as_slice())
}
