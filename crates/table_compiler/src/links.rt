//! The links of a device, in order, each with whether it is its object's sending one.

ghost use Rattle.std.specs.Prelude.{◌≡◌, ◌==◌, ℕ, ◌<◌, Option, Some, None, length, slice_index_or, if◌then◌else◌, IfOk, All};
ghost use Rattle.std.specs.Option.{option_or};
ghost use Rattle.knx_model.specs.declared.address.GroupAddr.{GroupAddr as Group};
ghost use Rattle.knx_model.specs.Meaning.{first_group, links_of, is_the_group};
ghost use Rattle.table_compiler.specs.Order.{IsLink};

use knx_model::{GroupAddr, LinkSpec};
use std::alloc::{AllocError, Global};

/// The link of a line.
fn link(object: u8, group: GroupAddr, sending: bool) -> LinkSpec
    ensures value { result ≡ record { object = object; group = group; sending = sending } }
    ensures small { IsLink result }
{
    LinkSpec {
        object,
        group,
        sending,
    }
}

/// Keeps the group of an object, where it has none.
fn keep_first(kept: &mut [Option<GroupAddr>; 256], object: u8, group: GroupAddr)
    ensures whole { length kept.new ≡ 256 }
    ensures each { (n : ℕ) → n < 256 → slice_index_or kept.new n None ≡ option_or (slice_index_or kept.old n None) (if object == n then Some group else None) }
{
    if kept[usize::from(object)].is_none() {
        kept[usize::from(object)] = Some(group);
    }
}

/// The sending address of each object: the group of its last `send` line, or else of its first link.
fn sending_groups(
    sends: &[Option<GroupAddr>; 256],
    lines: &[(u8, GroupAddr)],
) -> [Option<GroupAddr>; 256]
    ensures whole { length result ≡ 256 }
    ensures each { (n : ℕ) → n < 256 → slice_index_or result n None ≡ option_or (slice_index_or sends.now n None) (first_group lines.now n) }
{
    let mut sending = *sends;
    for line in lines {
        let (object, group) = *line;
        keep_first(&mut sending, object, group);
    }
    sending
}

/// Whether an object sends to the group.
fn is_the_group(sending: Option<GroupAddr>, group: GroupAddr) -> bool
    ensures { result ≡ is_the_group sending group }
{
    match sending {
        Some(sending) => sending.raw == group.raw,
        None => false,
    }
}

/// One link for each object and group, in order. An object sends to the group that `sends` has for it, or else to its first.
pub fn links_of(
    alloc: Global,
    sends: &[Option<GroupAddr>; 256],
    lines: &[(u8, GroupAddr)],
) -> Result<Vec<LinkSpec>, AllocError>
    ensures links { IfOk result (λ links. (last : ℕ → Option Group) → ((n : ℕ) → n < 256 → slice_index_or sends.now n None ≡ last n) → links.items ≡ links_of last lines.now) }
    ensures small { IfOk result (λ links. All IsLink links.items) }
{
    let sending = sending_groups(sends, lines);
    let mut links = Vec::with_capacity(alloc, lines.len())?;
    for line in lines {
        let (object, group) = *line;
        let sends = is_the_group(sending[usize::from(object)], group);
        links.push(link(object, group, sends))?;
    }
    Ok(links)
}
