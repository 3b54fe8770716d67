//! Looking for gateways at a host.

ghost use Rattle.std.specs.Prelude.{◌≡◌, []};
ghost use Rattle.line_model.specs.LinkStory.{IsNewLink};
ghost use Rattle.line_model.specs.Polled.{after_call, none_failed};
ghost use Rattle.discovery_ends.specs.Looking.{Looks};
ghost use Rattle.discovery_ends.specs.Searching.{SearchesNew};

use crate::search::{Findings, run};
use discovery::{Finder, Inquiry};
use knx_model::NoMemory;
use line_model::Dialer;
use std::alloc::Global;

/// What came of looking at a host.
#[derive(Drop)]
pub enum Looked {
    /// The host wasn't reached.
    NotReached,
    /// A link to it was searched over.
    Over(Findings),
}

/// Dials a host, looks for gateways over the link, and hands it back. At `Err` nothing was dialled.
pub fn look<D: Dialer>(
    alloc: Global,
    host: [u8; 4],
    port: u16,
    inquiry: Inquiry,
    dial: &mut D,
) -> Result<Looked, NoMemory>
    ensures { Looks result (record { host = host; port = port }) inquiry (D.now dial.old) (D.now dial.new) }
{
    let finder = Finder::new(alloc, inquiry)?;
    match dial.dial(host, port) {
        Ok(link) => Ok(Looked::Over(search_over(dial, link, finder))),
        Err(_) => Ok(Looked::NotReached),
    }
}

/// Searches over a link that was dialled, and hands it back.
fn search_over<D: Dialer>(dial: &mut D, link: D::L, finder: Finder) -> Findings
    requires new { IsNewLink (D.L.story link) }
    requires sound { D.L.faults link ≡ none_failed }
    requires none { finder.found ≡ [] }
    ensures inquiry { result.finder.inquiry ≡ finder.inquiry }
    ensures searches { SearchesNew finder.inquiry (D.now dial.new).link_back result.finder.found result.ended }
    ensures counts { (D.now dial.new).counts ≡ after_call result.ended (D.now dial.old).counts }
    ensures given { (D.now dial.new).given ≡ (D.now dial.old).given }
    ensures dials { (D.now dial.new).dials ≡ (D.now dial.old).dials }
{
    let mut link = link;
    let mut finder = finder;
    let ended = run(&mut link, &mut finder);
    dial.hang(link);
    Findings { finder, ended }
}
