//! Looking for gateways over a link.

ghost use Rattle.std.specs.Prelude.{◌≡◌, ◌≤◌, ◌+◌, ◌↔◌, ℕ, IfOk, IsTrue, List, OnErr, [], length};
ghost use Rattle.discovery.specs.Discovery.{Written};
ghost use Rattle.discovery.specs.Finding.{request_of};
ghost use Rattle.line_model.specs.LinkStory.{Clock, Recorded, Untold};
ghost use Rattle.line_model.specs.Polled.{after_call};
ghost use Rattle.line_model.specs.Record.{Entry};
ghost use Rattle.discovery_ends.specs.Going.{AgainSo, RoundSo};
ghost use Rattle.discovery_ends.specs.Searching.{Searches, Takes, most_datagrams, recorded};

use crate::listening::{Listened, listen};
use discovery::{Datagram, FindFrame, Finder, Inquiry, encode};
use knx_model::NoMemory;
use line_model::{Link, LinkFault};
use std::alloc::Global;

/// The most datagrams that are taken.
const MOST_DATAGRAMS: u32 = 65_536;

/// What was found, and how the search ended.
#[derive(Drop)]
pub struct Findings {
    pub finder: Finder,
    /// Fails as the link did; what was found until then stays found.
    pub ended: Result<(), LinkFault>,
}

/// Looks for gateways over a link: sends the request, and takes datagrams until 3,000 ms in turn were quiet, 64 gateways were found or 65,536
/// datagrams were taken. Where the first quiet found none, it sends once more. At `Err` nothing was sent.
pub fn find<L: Link>(alloc: Global, link: &mut L, inquiry: Inquiry) -> Result<Findings, NoMemory>
    ensures searches { IfOk result (λ s. (s.finder.inquiry ≡ inquiry) × Searches inquiry (L.story link.old) (L.story link.new) s.finder.found s.ended) }
    ensures untold { L.story link.old ≡ Untold → L.story link.new ≡ Untold }
    ensures counts { IfOk result (λ s. L.faults link.new ≡ after_call s.ended (L.faults link.old)) }
    ensures unsent { OnErr result (link.new ≡ link.old) }
    ensures time { L.clock link.old ≤ L.clock link.new }
    ensures events { L.place link.old ≤ L.place link.new }
    ensures script { L.script link.new ≡ L.script link.old }
{
    let mut finder = Finder::new(alloc, inquiry)?;
    let ended = run(link, &mut finder);
    Ok(Findings { finder, ended })
}

/// Sends and listens once, or twice.
pub(crate) fn run<L: Link>(link: &mut L, finder: &mut Finder) -> Result<(), LinkFault>
    ensures so { finder.old.found ≡ [] → Searches finder.old.inquiry (L.story link.old) (L.story link.new) finder.new.found result }
    ensures untold { L.story link.old ≡ Untold → L.story link.new ≡ Untold }
    ensures inquiry { finder.new.inquiry ≡ finder.old.inquiry }
    ensures counts { L.faults link.new ≡ after_call result (L.faults link.old) }
    ensures time { L.clock link.old ≤ L.clock link.new }
    ensures events { L.place link.old ≤ L.place link.new }
    ensures script { L.script link.new ≡ L.script link.old }
{
    match round(link, finder, MOST_DATAGRAMS) {
        Ok(Listened::Quiet { left }) => again(link, finder, left),
        Ok(Listened::Over) => Ok(()),
        Err(fault) => Err(fault),
    }
}

/// Where a first round has found none until it was quiet, there is a second.
fn again<L: Link>(link: &mut L, finder: &mut Finder, left: u32) -> Result<(), LinkFault>
    ensures so { AgainSo result finder.old.inquiry left (L.story link.old) (L.story link.new) finder.old.found finder.new.found }
    ensures untold { L.story link.old ≡ Untold → L.story link.new ≡ Untold }
    ensures inquiry { finder.new.inquiry ≡ finder.old.inquiry }
    ensures counts { L.faults link.new ≡ after_call result (L.faults link.old) }
    ensures time { L.clock link.old ≤ L.clock link.new }
    ensures events { L.place link.old ≤ L.place link.new }
    ensures script { L.script link.new ≡ L.script link.old }
{
    if !is_none(finder) {
        return Ok(());
    }
    match round(link, finder, left) {
        Ok(_) => Ok(()),
        Err(fault) => Err(fault),
    }
}

/// Sends the request, and listens.
fn round<L: Link>(link: &mut L, finder: &mut Finder, most: u32) -> Result<Listened, LinkFault>
    ensures so { (clock : Clock) (r : List Entry) (got : List (List ℕ)) → recorded (L.story link.old) ≡ Recorded clock r → Takes finder.old.inquiry got finder.old.found → length got + most ≡ most_datagrams → RoundSo clock result finder.old.inquiry r got (L.story link.new) finder.old.found finder.new.found }
    ensures untold { L.story link.old ≡ Untold → L.story link.new ≡ Untold }
    ensures inquiry { finder.new.inquiry ≡ finder.old.inquiry }
    ensures counts { L.faults link.new ≡ after_call result (L.faults link.old) }
    ensures time { L.clock link.old ≤ L.clock link.new }
    ensures events { L.place link.old ≤ L.place link.new }
    ensures script { L.script link.new ≡ L.script link.old }
{
    let request = request_of(finder.inquiry());
    match link.send(request.as_slice()) {
        Ok(()) => listen(link, finder, most),
        Err(fault) => Err(fault),
    }
}

/// The request that asks so.
fn request_of(inquiry: Inquiry) -> Datagram
    ensures { result ≡ Written (request_of inquiry) }
{
    match inquiry {
        Inquiry::Search => encode(&FindFrame::SearchRequest),
        Inquiry::Description => encode(&FindFrame::DescriptionRequest),
    }
}

/// Whether none was found.
fn is_none(finder: &Finder) -> bool
    ensures { IsTrue result ↔ (finder.now.found ≡ []) }
{
    finder.found().is_empty()
}
