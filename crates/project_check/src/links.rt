//! The links of a text, and the first line that repeats one.

ghost use Rattle.std.specs.Prelude.{◌≡◌, ◌++◌, List, length, map, Some, if◌then◌else◌, IfOk, OnOk};
ghost use Rattle.knx_model.specs.declared.project.Statement.{Statement as Stated};
ghost use Rattle.knx_model.specs.Rules.{some_line, links_to};
ghost use Rattle.project_check.specs.Links.{link_to, at_place, comes_again, lesser, lines_of, link_lines, IsLeastRepeat, AreAscending, AreSorted};

use knx_model::{GroupAddr, IndAddr, Statement, What};
use rayon::prelude::*;
use std::alloc::{AllocError, Global};
use std::thread::Threads;

/// A link: the raw address of its device, its object there, and its raw group.
#[derive(Clone, Copy, PartialEq, Eq, PartialOrd, Ord)]
pub struct Link {
    pub device: u16,
    pub object: u8,
    pub group: u16,
}

/// A link of a `link` line, and the place of the line among the statements. They are ordered by their links, and where these are the
/// same by their places.
#[derive(Clone, Copy, PartialEq, Eq, PartialOrd, Ord)]
pub struct LinkLine {
    pub link: Link,
    pub place: usize,
}

/// Adds the links of a device's object to these groups.
fn add_links(
    links: &mut Vec<LinkLine>,
    place: usize,
    device: IndAddr,
    object: u8,
    groups: &[GroupAddr],
) -> Result<(), AllocError>
    ensures { OnOk result (links.new.items ≡ links.old.items ++ map (at_place place) (map (link_to device object) groups.now)) }
{
    for group in groups {
        let link = Link {
            device: device.raw,
            object,
            group: group.raw,
        };
        links.push(LinkLine { link, place })?;
    }
    Ok(())
}

/// Adds the links of a `link` line.
fn add_line(links: &mut Vec<LinkLine>, place: usize, what: &What<'_>) -> Result<(), AllocError>
    ensures { OnOk result (links.new.items ≡ links.old.items ++ lines_of place what.now) }
{
    match what {
        What::Link {
            device,
            object,
            groups,
        } => add_links(links, place, *device, *object, groups.as_slice()),
        _ => Ok(()),
    }
}

/// The links of the `link` lines, in the order of the text.
fn link_lines(alloc: Global, statements: &[Statement<'_>]) -> Result<Vec<LinkLine>, AllocError>
    ensures { IfOk result (λ links. links.items ≡ link_lines statements.now) }
{
    let mut links = Vec::with_capacity(alloc, statements.len())?;
    for (place, statement) in statements.iter().enumerate() {
        add_line(&mut links, place, &statement.what)?;
    }
    Ok(links)
}

/// The lesser of two places, where there are two.
fn lesser(least: Option<usize>, place: usize) -> usize
    ensures { result ≡ lesser least place }
{
    match least {
        Some(least) => least.min(place),
        None => place,
    }
}

/// The least place of the links that come right after the same link of an earlier line, with one pair more.
fn with_pair(least: Option<usize>, link: LinkLine, next: LinkLine) -> Option<usize>
    ensures { result ≡ (if comes_again link next then Some (lesser least next.place) else least) }
{
    if link.link == next.link && link.place < next.place {
        Some(lesser(least, next.place))
    } else {
        least
    }
}

/// The least place of the links that come right after the same link of an earlier line.
fn least_repeat(links: &[LinkLine]) -> Option<usize>
    ensures { IsLeastRepeat links.now result (length links.now) }
{
    let mut least = None;
    for i in 1..links.len() {
        let link = links[i - 1];
        let next = links[i];
        least = with_pair(least, link, next);
    }
    least
}

/// The links of a text in ascending order, and the place of the first line that repeats a link of an earlier one.
#[derive(Drop)]
pub struct SortedLinks {
    pub links: Vec<LinkLine>,
    pub first_repeat: Option<usize>,
}

impl SortedLinks {
    /// Of links that ascend.
    fn of(links: Vec<LinkLine>) -> SortedLinks
        ensures { (ss : List Stated) → AreAscending links.items ss → AreSorted result ss }
    {
        let first_repeat = least_repeat(links.as_slice());
        SortedLinks {
            links,
            first_repeat,
        }
    }
}

/// The links of a text in ascending order.
pub fn sorted_links(alloc: Global, statements: &[Statement<'_>]) -> Result<SortedLinks, AllocError>
    ensures { IfOk result (λ sorted. AreSorted sorted statements.now) }
{
    let mut links = link_lines(alloc, statements)?;
    links.sort_unstable();
    Ok(SortedLinks::of(links))
}

/// The same as `sorted_links`, where they are sorted in as many threads as there are processors.
pub fn sorted_links_in_threads<R: Threads + Sync>(
    rt: &R,
    alloc: Global,
    statements: &[Statement<'_>],
) -> Result<SortedLinks, AllocError>
    ensures { IfOk result (λ sorted. AreSorted sorted statements.now) }
{
    let mut links = link_lines(alloc, statements)?;
    par_sort_unstable(rt, links.as_mut_slice());
    Ok(SortedLinks::of(links))
}

/// Whether a link is one of these, which ascend.
pub fn is_linked(links: &[LinkLine], link: Link) -> bool
    ensures { (ss : List Stated) → AreAscending links.now ss → result ≡ some_line (links_to link.device link.object link.group) ss }
{
    links.binary_search_by_key(&link, |line| line.link).is_ok()
}
