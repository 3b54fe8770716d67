//! The address table, the association table and the group objects' table, from links and objects.

ghost use Rattle.std.specs.Prelude.{◌≡◌, ℕ, ◌<◌, ◌≤◌, ◌↔◌, ◌++◌, length, map, not, IfOk, Contains, IsPermutation, All};
ghost use Rattle.std.specs.List.{AllPairs};
ghost use Rattle.std.specs.List.Sorted.{IsStrictlyIncreasing};
ghost use Rattle.knx_model.specs.declared.config.Config.{Config};
ghost use Rattle.knx_model.specs.Device.{Fits};
ghost use Rattle.knx_model.specs.Parameters.{HoldsParameters};
ghost use Rattle.knx_model.specs.Tables.{raw_of, two, address_list, association_list, object_list, StandsFor};
ghost use Rattle.table_compiler.specs.Order.{IsLink, AreApart, StandsBefore, place, pair_of};

use knx_model::{GroupAddr, Image, LinkSpec, NoMemory, ObjSpec, Octets};
use std::alloc::{AllocError, Global};

/// The groups of the links, each once, ascending.
fn groups_of(alloc: Global, links: &[LinkSpec]) -> Result<Vec<u16>, AllocError>
    ensures ascending { IfOk result (λ groups. IsStrictlyIncreasing groups.items) }
    ensures exactly { IfOk result (λ groups. (g : ℕ) → Contains groups.items g ↔ Contains (map raw_of links.now) g) }
    ensures few { IfOk result (λ groups. length groups.items ≤ length links.now) }
{
    let mut groups: Vec<u16> = links.iter().map(|link| link.group.raw).collect(alloc)?;
    groups.sort_unstable();
    groups.dedup();
    Ok(groups)
}

/// Where a link stands in the association table: by its object, the sending link first, then by its group.
#[derive(Clone, Copy, PartialEq, Eq, PartialOrd, Ord)]
struct Precedence {
    object: u8,
    receives_only: bool,
    group: GroupAddr,
}

impl Precedence {
    fn of(link: LinkSpec) -> Self
        ensures { result ≡ record { object = link.object; receives_only = not link.sending; group = link.group } }
    {
        Precedence {
            object: link.object,
            receives_only: !link.sending,
            group: link.group,
        }
    }
}

/// The links in the order of their pairs.
fn in_order(alloc: Global, links: &[LinkSpec]) -> Result<Vec<LinkSpec>, AllocError>
    requires links { All IsLink links.now }
    requires once { AllPairs AreApart links.now }
    ensures same { IfOk result (λ order. IsPermutation links.now order.items) }
    ensures ascending { IfOk result (λ order. AllPairs StandsBefore order.items) }
{
    let mut order = links.to_vec(alloc)?;
    order.sort_unstable_by_key(|link| Precedence::of(*link));
    Ok(order)
}

/// The place of a group, from 1.
fn place_of(groups: &[u16], raw: u16) -> u16
    requires ascending { IsStrictlyIncreasing groups.now }
    requires listed { Contains groups.now raw }
    requires few { length groups.now < 65536 }
    ensures { result ≡ place groups.now raw }
{
    let before = groups.partition_point(|group| *group < raw);
    before as u16 + 1
}

/// A count, and the groups.
fn address_table(alloc: Global, groups: &[u16]) -> Result<Octets, NoMemory>
    requires { length groups.now < 65536 }
    ensures { IfOk result (λ octets. octets ≡ address_list groups.now) }
{
    let mut out = Vec::with_capacity(alloc, 2 + 2 * groups.len())?;
    out.extend_from_slice(&(groups.len() as u16).to_be_bytes())?;
    for group in groups {
        out.extend_from_slice(&group.to_be_bytes())?;
    }
    Ok(Octets::from_vec(out))
}

/// The octets of a pair.
fn pair(place: u16, object: u8) -> [u8; 4]
    ensures { result ≡ two place ++ two object }
{
    let [high, low] = place.to_be_bytes();
    [high, low, 0, object]
}

/// A count, and a pair for each link.
fn association_table(alloc: Global, groups: &[u16], order: &[LinkSpec]) -> Result<Octets, NoMemory>
    requires ascending { IsStrictlyIncreasing groups.now }
    requires listed { All (λ l. Contains groups.now (raw_of l)) order.now }
    requires few { length groups.now < 65536 }
    requires few_links { length order.now < 65536 }
    ensures { IfOk result (λ octets. octets ≡ association_list (map (pair_of groups.now) order.now)) }
{
    let mut out = Vec::with_capacity(alloc, 2 + 4 * order.len())?;
    out.extend_from_slice(&(order.len() as u16).to_be_bytes())?;
    for link in order {
        let place = place_of(groups, link.group.raw);
        out.extend_from_slice(&pair(place, link.object))?;
    }
    Ok(Octets::from_vec(out))
}

/// A count, and the flag octet and size code of each object.
fn group_objects(alloc: Global, objects: &[ObjSpec]) -> Result<Octets, NoMemory>
    requires { length objects.now < 65536 }
    ensures { IfOk result (λ octets. octets ≡ object_list objects.now) }
{
    let mut out = Vec::with_capacity(alloc, 2 + 2 * objects.len())?;
    out.extend_from_slice(&(objects.len() as u16).to_be_bytes())?;
    for object in objects {
        out.extend_from_slice(&[object.flags, object.size])?;
    }
    Ok(Octets::from_vec(out))
}

/// The tables of links and objects, beside a parameter memory.
pub fn image_of(
    alloc: Global,
    links: &[LinkSpec],
    objects: &[ObjSpec],
    params: Octets,
) -> Result<Image, NoMemory>
    requires few_links { length links.now ≤ 2047 }
    requires links { All IsLink links.now }
    // No object is linked to a group twice.
    requires once { AllPairs AreApart links.now }
    requires few_objects { length objects.now ≤ 255 }
    requires few_params { length params ≤ 8192 }
    ensures stands { IfOk result (λ image. (config : Config) → config.links ≡ links.now → config.objects ≡ objects.now → HoldsParameters params config.param_len config.params → StandsFor image config) }
    ensures fits { IfOk result (λ image. Fits image) }
{
    let groups = groups_of(alloc, links)?;
    let order = in_order(alloc, links)?;
    let groups = groups.as_slice();
    let addr = address_table(alloc, groups)?;
    let assoc = association_table(alloc, groups, order.as_slice())?;
    let objs = group_objects(alloc, objects)?;
    Ok(Image {
        addr,
        assoc,
        objs,
        params,
    })
}
