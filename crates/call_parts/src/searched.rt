//! How a search for gateways ends, and what is written of that.

ghost use Rattle.std.specs.Prelude.{◌≡◌, IfOk};
ghost use Rattle.frame_text.specs.GatewayText.{found_text};
ghost use Rattle.call_parts.specs.Searched.{found_before_fault, found_or_none, found_status, search_status, search_text};

use call_words::Status;
use discovery_ends::{About, Finder};
use frame_text::put_findings;
use knx_model::{NoMemory, Octets};
use report_text::NO_MEMORY;
use std::alloc::Global;

/// What is told where a link failed.
pub const LINK_FAULT: &[u8] = b"link fault\n";

/// What is told where no gateway was found.
const NOTHING_FOUND: &[u8] = b"nothing found\n";

/// How a search ends.
#[derive(Drop)]
pub enum SearchEnd {
    /// It came to its end, with these gateways.
    Ended(Finder),
    /// The link failed; these were found until then.
    Failed(Finder),
    /// There was no memory to go on.
    Untold(NoMemory),
}

/// The lines of the gateways that were found.
fn found_lines(alloc: Global, found: &[About]) -> Result<Octets, NoMemory>
    ensures { IfOk result (λ text. text ≡ found_text found.now) }
{
    let mut out = Octets::new(alloc);
    put_findings(alloc, &mut out, found)?;
    Ok(out)
}

/// The same, or that there is none.
fn found_or_none(alloc: Global, found: &[About]) -> Result<Octets, NoMemory>
    ensures { IfOk result (λ text. text ≡ found_or_none found.now) }
{
    match found {
        [] => Octets::from_slice(alloc, NOTHING_FOUND),
        _ => found_lines(alloc, found),
    }
}

/// The lines of the gateways that were found until a link failed, and that it did.
fn found_before_fault(alloc: Global, found: &[About]) -> Result<Octets, NoMemory>
    ensures { IfOk result (λ text. text ≡ found_before_fault found.now) }
{
    let mut out = found_lines(alloc, found)?;
    out.append(LINK_FAULT)?;
    Ok(out)
}

/// What is printed of a search.
pub fn search_text(alloc: Global, end: &SearchEnd) -> Result<Octets, NoMemory>
    ensures { IfOk result (λ text. text ≡ search_text end.now) }
{
    match end {
        SearchEnd::Ended(finder) => found_or_none(alloc, finder.found()),
        SearchEnd::Failed(finder) => found_before_fault(alloc, finder.found()),
        SearchEnd::Untold(_) => Octets::from_slice(alloc, NO_MEMORY),
    }
}

/// The status where a search came to its end.
fn found_status(found: &[About]) -> Status
    ensures { result ≡ found_status found.now }
{
    match found {
        [] => Status::NothingFound,
        _ => Status::Done,
    }
}

/// The status that goes with it.
pub fn search_status(end: &SearchEnd) -> Status
    ensures { result ≡ search_status end.now }
{
    match end {
        SearchEnd::Ended(finder) => found_status(finder.found()),
        SearchEnd::Failed(_) => Status::Link,
        SearchEnd::Untold(want) => Status::NoMemory(*want),
    }
}
