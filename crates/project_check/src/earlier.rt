//! What is known of the statements before a line.

ghost use Rattle.std.specs.Prelude.{◌≡◌, ◌||◌, ◌++◌, ◌+◌, ℕ, Bool, List, [], ◌∷◌, nat_le, ◌&&◌, IfOk, OnOk};
ghost use Rattle.std.specs.HashSet.{contains};
ghost use Rattle.knx_model.specs.declared.project.Statement.{Statement as Stated};
ghost use Rattle.knx_model.specs.Rules.{declares_group, declares_device, declares_object, is_device_line};
ghost use Rattle.project_check.specs.Keys.{object_eq};
ghost use Rattle.project_check.specs.Knowing.{Holds, Precedes, capped, counted, repeats, of_group, of_device, has_its_object, with_links, exceeds_links};

use crate::by_address::ByAddress;
use crate::group_object::GroupObject;
use knx_model::{Statement, What};
use std::alloc::{AllocError, Global};
use std::collections::HashSet;

/// The `device` lines that a text may have.
pub const MOST_DEVICES: u16 = 255;

/// The links that a device may have, one for each group of its `link` lines.
pub const MOST_LINKS: u16 = 2047;

/// What is known of the statements before a line: what they declare, the number of `device` lines, and the number of links of each
/// device. The numbers stop at 65,535, far above their limits.
#[derive(Drop)]
pub struct Earlier {
    pub groups: ByAddress<bool>,
    pub devices: ByAddress<bool>,
    pub objects: HashSet<GroupObject>,
    pub device_lines: u16,
    pub links: ByAddress<u16>,
}

/// Adds the group of a `ga` line, and tells whether it was there.
fn add_group(groups: &mut ByAddress<bool>, what: &What<'_>) -> bool
    ensures added { (f : ℕ → Bool) → Holds groups.old f → Holds groups.new (λ g. f g || declares_group g what.now) }
    ensures was { (f : ℕ → Bool) → Holds groups.old f → result ≡ of_group f what.now }
{
    match what {
        What::Group { group, .. } => {
            let was = groups.get(group.raw);
            groups.set(group.raw, true);
            was
        }
        _ => false,
    }
}

/// Adds the device of a `device` line, and tells whether it was there.
fn add_device(devices: &mut ByAddress<bool>, what: &What<'_>) -> bool
    ensures added { (f : ℕ → Bool) → Holds devices.old f → Holds devices.new (λ d. f d || declares_device d what.now) }
    ensures was { (f : ℕ → Bool) → Holds devices.old f → result ≡ of_device f what.now }
{
    match what {
        What::Device { device, .. } => {
            let was = devices.get(device.raw);
            devices.set(device.raw, true);
            was
        }
        _ => false,
    }
}

/// Adds the group object of an `object` line, and tells whether it was there.
fn add_object(objects: &mut HashSet<GroupObject>, what: &What<'_>) -> Result<bool, AllocError>
    ensures added { OnOk result ((o : GroupObject) → contains object_eq objects.new o ≡ (contains object_eq objects.old o || declares_object o.device o.number what.now)) }
    ensures was { IfOk result (λ was. was ≡ has_its_object objects.old what.now) }
{
    match what {
        What::Object { device, n, .. } => {
            let object = GroupObject {
                device: device.raw,
                number: *n,
            };
            Ok(!objects.insert(object)?)
        }
        _ => Ok(false),
    }
}

/// Counts a `device` line.
fn count_device(device_lines: u16, what: &What<'_>) -> u16
    ensures { result ≡ counted (is_device_line what.now) device_lines }
{
    match what {
        What::Device { .. } => device_lines.saturating_add(1),
        _ => device_lines,
    }
}

/// A count with more links; it stops at 65,535.
fn more_links(before: u16, groups: usize) -> u16
    ensures { result ≡ capped (before + groups) }
{
    before.saturating_add(groups.min(65_535) as u16)
}

/// Counts the links of a `link` line for its device, and tells whether there are more than the device may have.
fn count_links(links: &mut ByAddress<u16>, what: &What<'_>) -> bool
    ensures counted { (f : ℕ → ℕ) → Holds links.old f → Holds links.new (λ d. with_links d what.now (f d)) }
    ensures exceeds { (f : ℕ → ℕ) → Holds links.old f → result ≡ exceeds_links f what.now }
{
    match what {
        What::Link { device, groups, .. } => {
            let count = more_links(links.get(device.raw), groups.as_slice().len());
            links.set(device.raw, count);
            count > MOST_LINKS
        }
        _ => false,
    }
}

/// Whether a `device` line comes after as many as there may be.
fn is_full(device_lines: u16, what: &What<'_>) -> bool
    ensures { result ≡ (is_device_line what.now && nat_le 255 device_lines) }
{
    match what {
        What::Device { .. } => device_lines >= MOST_DEVICES,
        _ => false,
    }
}

/// What of a statement stands in the lines before it, and whether these are as many as may be.
#[derive(Clone, Copy)]
pub struct Repeated {
    pub device: bool,
    pub group: bool,
    pub object: bool,
    pub devices_full: bool,
    pub links_full: bool,
}

impl Earlier {
    /// What is known where no statement comes before.
    pub fn new(alloc: Global) -> Result<Earlier, AllocError>
        ensures { IfOk result (λ earlier. Precedes earlier []) }
    {
        Ok(Earlier {
            groups: ByAddress::new(alloc, false)?,
            devices: ByAddress::new(alloc, false)?,
            objects: HashSet::new(alloc),
            device_lines: 0,
            links: ByAddress::new(alloc, 0)?,
        })
    }

    /// Adds a statement, and tells what of it stands in those before, but for its link.
    pub fn add(&mut self, statement: &Statement<'_>) -> Result<Repeated, AllocError>
        ensures added { OnOk result ((ss : List Stated) → Precedes self.old ss → Precedes self.new (ss ++ statement.now ∷ [])) }
        ensures repeated { IfOk result (λ repeated. (ss : List Stated) → Precedes self.old ss → repeated ≡ repeats ss statement.now.what) }
    {
        let what = &statement.what;
        let devices_full = is_full(self.device_lines, what);
        self.device_lines = count_device(self.device_lines, what);
        Ok(Repeated {
            device: add_device(&mut self.devices, what),
            group: add_group(&mut self.groups, what),
            object: add_object(&mut self.objects, what)?,
            devices_full,
            links_full: count_links(&mut self.links, what),
        })
    }
}
