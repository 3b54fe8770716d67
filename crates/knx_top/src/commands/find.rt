//! `find ADDR [describe]`: what gateways at an address tell of themselves, over a dialled link, which is handed back to the dialer before the call answers.

ghost use Rattle.std.specs.Prelude.{◌≡◌, Err, map, string_bytes};
ghost use Rattle.std.specs.Option.{option_map};
ghost use Rattle.call_parts.specs.Ending.{Is};
ghost use Rattle.knx_top.specs.commands.find.{EndsFor, RunsFind, find_words, find_words_of, inquiry_value};

use call_parts::{End, GatewayAddress, SearchEnd, address_in};
use call_words::Stop;
use discovery_ends::{Finder, Findings, Inquiry, LinkFault, Looked, look};
use line_model::Dialer;
use std::alloc::Global;

/// The address and what is asked there, in `ADDR [describe]`.
#[derive(Clone, Copy)]
pub struct FindNames {
    pub at: GatewayAddress,
    pub inquiry: Inquiry,
}

/// What the words behind the address ask: who is there, or with `describe` what the gateway is.
fn inquiry_in(words: &[String]) -> Option<Inquiry>
    ensures { result ≡ inquiry_value (map string_bytes words.now) }
{
    match words {
        [] => Some(Inquiry::Search),
        [word] if word.as_str() == "describe" => Some(Inquiry::Description),
        _ => None,
    }
}

/// The words of `find`.
pub fn find_names(words: &[String]) -> Option<FindNames>
    ensures { option_map find_words_of result ≡ find_words (map string_bytes words.now) }
{
    let [address, others @ ..] = words else {
        return None;
    };
    let at = address_in(address.as_str())?;
    let inquiry = inquiry_in(others)?;
    Some(FindNames { at, inquiry })
}

/// How a search ended that failed so.
fn end_of_fault(finder: Finder, fault: LinkFault) -> SearchEnd
    ensures { EndsFor finder.found (Err fault) result }
{
    match fault {
        LinkFault::Failed => SearchEnd::Failed(finder),
        LinkFault::NoMemory(want) => SearchEnd::Untold(want),
    }
}

/// How a search ended.
fn end_of(findings: Findings) -> SearchEnd
    ensures { EndsFor findings.finder.found findings.ended result }
{
    let Findings { finder, ended } = findings;
    match ended {
        Ok(()) => SearchEnd::Ended(finder),
        Err(fault) => end_of_fault(finder, fault),
    }
}

/// A call of `find`.
pub fn call<D: Dialer>(alloc: Global, names: FindNames, dial: &mut D) -> End
    ensures { RunsFind (find_words_of names) (D.now dial.old) (D.now dial.new) (Is result) }
{
    match look(alloc, names.at.host, names.at.port, names.inquiry, dial) {
        Ok(Looked::Over(findings)) => End::Finds(end_of(findings)),
        Ok(Looked::NotReached) => End::NotOpened,
        Err(want) => End::Stops(Stop::NoMemory(want)),
    }
}
