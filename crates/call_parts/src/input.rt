//! The files of a call are read, up to the first read that is refused.

ghost use Rattle.std.specs.Prelude.{◌≡◌, ◌≤◌, ◌+◌, ℕ, List, Some, length, option_to_list, true};
ghost use Rattle.call_parts.specs.Input.{IsRead, OnlyRose, failed, goes_on};
ghost use Rattle.call_parts.specs.Names.{named};

use knx_model::{FileFault, Files, LONGEST_TEXT, Octets};
use std::alloc::Global;

/// One octet more than a text may have, so that a longer one is seen to be longer.
const LIMIT: usize = LONGEST_TEXT as usize + 1;

/// What came of a file.
#[derive(Drop)]
pub enum Reading {
    /// The words don't name it.
    Unnamed,
    /// A read before it was refused.
    Unread,
    /// These octets were read.
    Whole(Octets),
    /// The read was refused.
    Fault(FileFault),
}

/// Whether the file behind this one is read.
fn goes_on(reading: &Reading) -> bool
    ensures { result ≡ goes_on reading.now }
{
    match reading {
        Reading::Unnamed | Reading::Whole(_) => true,
        Reading::Unread | Reading::Fault(_) => false,
    }
}

/// Reads a file.
fn read<F: Files>(alloc: Global, files: &mut F, name: &str) -> Reading
    ensures read { IsRead (F.now files.old).file true (Some name.now) result }
    ensures counts { OnlyRose (failed (Some name.now) result) (F.now files.old).faults (F.now files.new).faults }
    ensures stays { (other : List ℕ) → (F.now files.new).file other ≡ (F.now files.old).file other }
    ensures reads { (F.now files.new).reads ≤ (F.now files.old).reads + 1 }
{
    match files.read(alloc, name, LIMIT) {
        Ok(octets) => Reading::Whole(octets),
        Err(fault) => Reading::Fault(fault),
    }
}

/// Reads a file, where it is named.
pub fn read_named<F: Files>(alloc: Global, files: &mut F, name: Option<&str>) -> Reading
    ensures read { IsRead (F.now files.old).file true (named name.entry) result }
    ensures counts { OnlyRose (failed (named name.entry) result) (F.now files.old).faults (F.now files.new).faults }
    ensures stays { (other : List ℕ) → (F.now files.new).file other ≡ (F.now files.old).file other }
    ensures reads { (F.now files.new).reads ≤ (F.now files.old).reads + length (option_to_list (named name.entry)) }
{
    match name {
        None => Reading::Unnamed,
        Some(name) => read(alloc, files, name),
    }
}

/// Reads a file, where the reading goes on behind the one before it.
pub fn read_after<F: Files>(alloc: Global, files: &mut F, before: &Reading, name: &str) -> Reading
    ensures read { IsRead (F.now files.old).file (goes_on before.now) (Some name.now) result }
    ensures counts { OnlyRose (failed (Some name.now) result) (F.now files.old).faults (F.now files.new).faults }
    ensures stays { (other : List ℕ) → (F.now files.new).file other ≡ (F.now files.old).file other }
    ensures reads { (F.now files.new).reads ≤ (F.now files.old).reads + 1 }
{
    if goes_on(before) {
        read(alloc, files, name)
    } else {
        Reading::Unread
    }
}
