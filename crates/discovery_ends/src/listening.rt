//! Listening for responses.

ghost use Rattle.std.specs.Prelude.{◌≡◌, ◌≤◌, ◌<◌, ◌+◌, ◌⊎◌, ℕ, List, IsTrue, false, length};
ghost use Rattle.discovery.specs.Finding.{most_found};
ghost use Rattle.line_model.specs.LinkStory.{Clock, Untold};
ghost use Rattle.line_model.specs.Polled.{after_call};
ghost use Rattle.line_model.specs.Record.{Entry};
ghost use Rattle.discovery_ends.specs.Going.{Awake, ListenedSo, PolledSo};
ghost use Rattle.discovery_ends.specs.Searching.{Takes, most_datagrams};

use discovery::Finder;
use line_model::{Link, LinkFault, Polled};

/// The most octets that a link gives of a datagram.
const LONGEST: usize = 512;
/// It is quiet where for so long nothing came, in milliseconds.
const QUIET_MS: u32 = 3_000;

/// How a listening ended.
#[derive(Clone, Copy, Drop)]
pub enum Listened {
    /// It was quiet, and so many more datagrams may be taken.
    Quiet { left: u32 },
    /// All gateways were found that are kept, or all datagrams taken.
    Over,
}

/// Takes datagrams until it is quiet, all gateways were found that are kept, or so many datagrams were taken.
pub fn listen<L: Link>(link: &mut L, finder: &mut Finder, most: u32) -> Result<Listened, LinkFault>
    ensures so { (clock : Clock) (r : List Entry) (got : List (List ℕ)) → Awake clock (L.story link.old) r → Takes finder.old.inquiry got finder.old.found → length got + most ≡ most_datagrams → ListenedSo clock result finder.old.inquiry r got (L.story link.new) finder.new.found }
    ensures untold { L.story link.old ≡ Untold → L.story link.new ≡ Untold }
    ensures inquiry { finder.new.inquiry ≡ finder.old.inquiry }
    ensures counts { L.faults link.new ≡ after_call result (L.faults link.old) }
    ensures time { L.clock link.old ≤ L.clock link.new }
    ensures events { L.place link.old ≤ L.place link.new }
    ensures script { L.script link.new ≡ L.script link.old }
{
    let mut left = most;
    while !is_over(finder, left) {
        match poll(link, finder) {
            Ok(Heard::Datagram) => left -= 1,
            Ok(Heard::Quiet) => return Ok(Listened::Quiet { left }),
            Err(fault) => return Err(fault),
        }
    }
    Ok(Listened::Over)
}

/// Whether no more is to be taken, where so many datagrams may be.
fn is_over(finder: &Finder, left: u32) -> bool
    ensures over { IsTrue result → (length finder.now.found ≡ most_found) ⊎ (left ≡ 0) }
    ensures not { result ≡ false → (length finder.now.found < most_found) × (0 < left) }
{
    finder.found().len() >= Finder::MOST || left == 0
}

/// What a poll brought.
#[derive(Clone, Copy, Drop)]
enum Heard {
    Datagram,
    Quiet,
}

/// Waits for a datagram, which the finder takes.
fn poll<L: Link>(link: &mut L, finder: &mut Finder) -> Result<Heard, LinkFault>
    ensures so { (clock : Clock) (r : List Entry) → Awake clock (L.story link.old) r → PolledSo clock result finder.old.inquiry r (L.story link.new) finder.old.found finder.new.found }
    ensures untold { L.story link.old ≡ Untold → L.story link.new ≡ Untold }
    ensures inquiry { finder.new.inquiry ≡ finder.old.inquiry }
    ensures counts { L.faults link.new ≡ after_call result (L.faults link.old) }
    ensures time { L.clock link.old ≤ L.clock link.new }
    ensures events { L.place link.old ≤ L.place link.new }
    ensures script { L.script link.new ≡ L.script link.old }
{
    let mut into = [0; LONGEST];
    match link.poll(&mut into, QUIET_MS) {
        Ok(Polled::Got(len)) => {
            finder.take(&into[..len]);
            Ok(Heard::Datagram)
        }
        Ok(Polled::Quiet) => Ok(Heard::Quiet),
        Err(fault) => Err(fault),
    }
}
