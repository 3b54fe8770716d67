//! Which rules a statement breaks, and the one of the least number.

ghost use Rattle.std.specs.Prelude.{◌≡◌, ◌≢◌, ◌&&◌, ◌||◌, true, ℕ, List, IfOk, IfSome};
ghost use Rattle.std.specs.List.{list_any};
ghost use Rattle.knx_model.specs.declared.catalogue.model.NamedModel.{NamedModel};
ghost use Rattle.knx_model.specs.declared.project.Statement.{Statement as Stated};
ghost use Rattle.knx_model.specs.declared.project.What.TheVariants.{Device as DeviceLine, Object as ObjectLine, Link as LinkStated, Send as SendLine, Flags as FlagsLine, Param as ParamLine};
ghost use Rattle.knx_model.specs.Rules.{rule_of, some_line, has_group, repeats_group, is_undeclared, duplicate_object, links_again, size_of_first, first_linked, differ, differs_from_first};
ghost use Rattle.project_check.specs.Keys.{names_model};
ghost use Rattle.project_check.specs.Knowing.{AreNamed, DeclaresAll, Gathers, repeats, IsNamed};
ghost use Rattle.project_check.specs.Links.{AreSorted, is_at};

use crate::broken::first_broken_rule;
use crate::by_address::ByAddress;
use crate::declared::{Declared, first_objects};
use crate::earlier::{MOST_DEVICES, MOST_LINKS, Repeated};
use crate::group_object::GroupObject;
use crate::known::KnownObject;
use crate::links::{Link, LinkLine, SortedLinks, is_linked};
use crate::named_models::NamedModels;
use knx_model::{GroupAddr, IndAddr, Statement, What, Why};
use std::alloc::{AllocError, Global};

/// The 256th `device` line.
const TOO_MANY_DEVICES: Why = Why::TooMany {
    limit: MOST_DEVICES as u32,
};

/// More than 2,047 links of a device.
const TOO_MANY_LINKS: Why = Why::TooMany {
    limit: MOST_LINKS as u32,
};

/// What is known of a whole text but of its links: what it declares, and what is known of the group object of the first link of each
/// group, none where the group has no link.
#[derive(Drop)]
pub struct Gathered<'b, 'a> {
    pub models: &'b NamedModels<'a>,
    pub declared: Declared<'b, 'a>,
    pub first_objects: ByAddress<Option<KnownObject>>,
}

impl<'b, 'a> Gathered<'b, 'a> {
    /// What is known of these statements.
    pub fn of(
        alloc: Global,
        models: &'b NamedModels<'a>,
        statements: &'a [Statement<'a>],
    ) -> Result<Gathered<'b, 'a>, AllocError>
        ensures { IfOk result (λ gathered. (catalogue : List NamedModel) → AreNamed catalogue models.now statements.now → Gathers catalogue gathered statements.now) }
    {
        let declared = Declared::by_all(alloc, models, statements)?;
        let first_objects = first_objects(alloc, &declared, statements)?;
        Ok(Gathered {
            models,
            declared,
            first_objects,
        })
    }
}

/// What is known of a whole text: what it declares, what is known of the group object of the first link of each group, none where
/// the group has no link, the place of the first `link` line that repeats a link of an earlier one, and its links in ascending
/// order.
#[derive(Drop)]
pub struct Whole<'b, 'a> {
    pub models: &'b NamedModels<'a>,
    pub declared: Declared<'b, 'a>,
    pub first_objects: ByAddress<Option<KnownObject>>,
    pub first_repeat: Option<usize>,
    pub links: Vec<LinkLine>,
}

/// Whether two sizes are known and differ.
fn differ(one: Option<u8>, other: Option<u8>) -> bool
    ensures { result ≡ differ one other }
{
    match (one, other) {
        (Some(one), Some(other)) => one != other,
        _ => false,
    }
}

/// Whether a group is one of these.
fn has_group(group: u16, groups: &[GroupAddr]) -> bool
    ensures { result ≡ has_group group groups.now }
{
    groups.iter().any(|g| g.raw == group)
}

/// Whether a group stands twice.
fn repeats_group(groups: &[GroupAddr]) -> bool
    ensures { result ≡ repeats_group groups.now }
{
    let mut rest = groups;
    while let [group, others @ ..] = rest {
        if has_group(group.raw, others) {
            return true;
        }
        rest = others;
    }
    false
}

impl<'b, 'a> Whole<'b, 'a> {
    /// What is known where these are the links.
    pub fn of(gathered: Gathered<'b, 'a>, sorted: SortedLinks) -> Whole<'b, 'a>
        ensures { (catalogue : List NamedModel) (ss : List Stated) → Gathers catalogue gathered.entry ss → AreSorted sorted ss → DeclaresAll catalogue result ss }
    {
        Whole {
            models: gathered.models,
            declared: gathered.declared,
            first_objects: gathered.first_objects,
            first_repeat: sorted.first_repeat,
            links: sorted.links,
        }
    }

    /// The first rule that a `device` line breaks.
    fn device_broken(&self, repeated: Repeated, model: &'a [u8]) -> Option<Why>
        ensures { (device : IndAddr) (catalogue : List NamedModel) (before all : List Stated) → DeclaresAll catalogue self.now all → some_line (names_model model.now) all ≡ true → repeated ≡ repeats before (DeviceLine device model.now) → result ≡ rule_of catalogue before all (DeviceLine device model.now) }
    {
        let unknown = self.models.named(model).is_none();
        first_broken_rule(&[
            (repeated.device, Why::DuplicateDevice),
            (unknown, Why::UnknownModel),
            (repeated.devices_full, TOO_MANY_DEVICES),
        ])
    }

    /// The first rule that an `object` line breaks.
    fn object_broken(&self, repeated: Repeated, device: IndAddr, n: u8) -> Option<Why>
        ensures { (size flags : ℕ) (catalogue : List NamedModel) (before all : List Stated) → DeclaresAll catalogue self.now all → repeated ≡ repeats before (ObjectLine device n size flags) → result ≡ rule_of catalogue before all (ObjectLine device n size flags) }
    {
        let twice = self.has_twice(repeated, device, n);
        let declared = self.declared.has_device(device.raw);
        first_broken_rule(&[(twice, Why::DuplicateObject), (!declared, Why::NoDevice)])
    }

    /// Whether an object is in the model of its device, or in an earlier line, where the model is known.
    fn has_twice(&self, repeated: Repeated, device: IndAddr, n: u8) -> bool
        ensures { (size flags : ℕ) (catalogue : List NamedModel) (before all : List Stated) → DeclaresAll catalogue self.now all → repeated ≡ repeats before (ObjectLine device n size flags) → result ≡ duplicate_object catalogue before all (ObjectLine device n size flags) }
    {
        match self.declared.model(device.raw) {
            Some(index) => index.size_of(n).is_some() || repeated.object,
            None => false,
        }
    }

    /// The first rule that a `link` line breaks.
    fn link_broken(
        &self,
        place: usize,
        repeated: Repeated,
        device: IndAddr,
        object: u8,
        groups: &[GroupAddr],
    ) -> Option<Why>
        ensures { (catalogue : List NamedModel) (before all : List Stated) → DeclaresAll catalogue self.now all → repeated ≡ repeats before (LinkStated device object groups.now) → links_again before (LinkStated device object groups.now) ≡ is_at self.now.first_repeat place → result ≡ rule_of catalogue before all (LinkStated device object groups.now) }
    {
        let known = self.declared.known_object(GroupObject {
            device: device.raw,
            number: object,
        });
        let lacks_group = self.lacks_group(groups);
        let missing = known.is_missing();
        let twice = self.links_twice(place, groups);
        let declared = self.declared.has_device(device.raw);
        let differs = self.size_differs(declared, known.size, groups);
        first_broken_rule(&[
            (lacks_group, Why::UnknownGroup),
            (missing, Why::UnknownObject),
            (twice, Why::DuplicateLink),
            (differs, Why::SizeDiffers),
            (repeated.links_full, TOO_MANY_LINKS),
            (!declared, Why::NoDevice),
        ])
    }

    /// Whether one of the groups stands in no `ga` line.
    fn lacks_group(&self, groups: &[GroupAddr]) -> bool
        ensures { (catalogue : List NamedModel) (all : List Stated) → DeclaresAll catalogue self.now all → result ≡ list_any (is_undeclared all) groups.now }
    {
        for group in groups {
            if !self.declared.has_group(group.raw) {
                return true;
            }
        }
        false
    }

    /// The first rule that a `send` line breaks.
    fn send_broken(&self, device: IndAddr, object: u8, group: GroupAddr) -> Option<Why>
        ensures { (catalogue : List NamedModel) (before all : List Stated) → DeclaresAll catalogue self.now all → result ≡ rule_of catalogue before all (SendLine device object group) }
    {
        let known = self.declared.known_object(GroupObject {
            device: device.raw,
            number: object,
        });
        let has_group = self.declared.has_group(group.raw);
        let missing = known.is_missing();
        let declared = self.declared.has_device(device.raw);
        let link = Link {
            device: device.raw,
            object,
            group: group.raw,
        };
        let linked = is_linked(self.links.as_slice(), link);
        first_broken_rule(&[
            (!has_group, Why::UnknownGroup),
            (missing, Why::UnknownObject),
            (!declared, Why::NoDevice),
            (!linked, Why::NotLinked),
        ])
    }

    /// Whether the line at a place is the first that repeats a link of an earlier one.
    fn repeats_link(&self, place: usize) -> bool
        ensures { result ≡ is_at self.now.first_repeat place }
    {
        match self.first_repeat {
            Some(first) => first == place,
            None => false,
        }
    }

    /// Whether the `link` line at a place links to a group that an earlier one of its object links to, or to a group twice.
    fn links_twice(&self, place: usize, groups: &[GroupAddr]) -> bool
        ensures { result ≡ (is_at self.now.first_repeat place || repeats_group groups.now) }
    {
        self.repeats_link(place) || repeats_group(groups)
    }

    /// The size code of the group object of a group's first `link` line.
    fn first_size(&self, group: u16) -> Option<u8>
        ensures { (catalogue : List NamedModel) (all : List Stated) → DeclaresAll catalogue self.now all → result ≡ size_of_first catalogue all (first_linked all group) }
    {
        self.first_objects.get(group)?.size
    }

    /// Whether a size is known and another than that of the first `link` line of one of the groups.
    fn differs_from_first(&self, size: Option<u8>, groups: &[GroupAddr]) -> bool
        ensures { (catalogue : List NamedModel) (all : List Stated) → DeclaresAll catalogue self.now all → result ≡ list_any (differs_from_first catalogue all size) groups.now }
    {
        for group in groups {
            if differ(size, self.first_size(group.raw)) {
                return true;
            }
        }
        false
    }

    /// The same where the device of the line is declared.
    fn size_differs(&self, declared: bool, size: Option<u8>, groups: &[GroupAddr]) -> bool
        ensures { (catalogue : List NamedModel) (all : List Stated) → DeclaresAll catalogue self.now all → result ≡ (declared && list_any (differs_from_first catalogue all size) groups.now) }
    {
        declared && self.differs_from_first(size, groups)
    }

    /// The first rule that a `flags` line breaks.
    fn flags_broken(&self, device: IndAddr, object: u8) -> Option<Why>
        ensures { (flags : ℕ) (catalogue : List NamedModel) (before all : List Stated) → DeclaresAll catalogue self.now all → result ≡ rule_of catalogue before all (FlagsLine device object flags) }
    {
        let known = self.declared.known_object(GroupObject {
            device: device.raw,
            number: object,
        });
        let missing = known.is_missing();
        let declared = self.declared.has_device(device.raw);
        first_broken_rule(&[(missing, Why::UnknownObject), (!declared, Why::NoDevice)])
    }

    /// The first rule that a `param` line breaks.
    fn param_broken(&self, device: IndAddr, name: &[u8], value: u32) -> Option<Why>
        ensures { (catalogue : List NamedModel) (before all : List Stated) → DeclaresAll catalogue self.now all → result ≡ rule_of catalogue before all (ParamLine device name.now value) }
    {
        let known = self.declared.known_parameter(device.raw, name);
        let unknown = known.is_unknown();
        let outside = known.excludes(value);
        let declared = self.declared.has_device(device.raw);
        first_broken_rule(&[
            (unknown, Why::UnknownParameter),
            (outside, Why::OutOfRange),
            (!declared, Why::NoDevice),
        ])
    }

    /// The rule of the least number that a statement breaks.
    pub fn first_rule(&self, place: usize, repeated: Repeated, what: &'a What<'a>) -> Option<Why>
        ensures { (catalogue : List NamedModel) (before all : List Stated) → DeclaresAll catalogue self.now all → IsNamed all what.now → repeated ≡ repeats before what.now → links_again before what.now ≡ is_at self.now.first_repeat place → result ≡ rule_of catalogue before all what.now }
    {
        match what {
            What::Version | What::Title(_) => None,
            What::Group { .. } => first_broken_rule(&[(repeated.group, Why::DuplicateGroup)]),
            What::Device { model, .. } => self.device_broken(repeated, model.as_slice()),
            What::Object { device, n, .. } => self.object_broken(repeated, *device, *n),
            What::Link {
                device,
                object,
                groups,
            } => self.link_broken(place, repeated, *device, *object, groups.as_slice()),
            What::Send {
                device,
                object,
                group,
            } => self.send_broken(*device, *object, *group),
            What::Flags { device, object, .. } => self.flags_broken(*device, *object),
            What::Param {
                device,
                name,
                value,
            } => self.param_broken(*device, name.as_slice(), *value),
        }
    }
}
