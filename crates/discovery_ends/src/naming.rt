//! A port at which a gateway names where it is bound.

ghost use Rattle.std.specs.Prelude.{◌≡◌, ◌≤◌, ◌+◌, OnErr, OnOk, Some, length};
ghost use Rattle.line_model.specs.PortStory.{Adds, Gave, GivesOrNot, TakesSo, after_call};
ghost use Rattle.discovery_ends.specs.Naming.{exchanged, exchanged_at, has_place, named, named_story, place_in};

use discovery::Datagram;
use line_model::{Port, PortFault, PortPolled};
use std::marker::Model;

/// The octets of an address and a port number.
const LENGTH: usize = 6;

/// 0.0.0.0:0, in an endpoint's octets.
pub const NOWHERE: [u8; LENGTH] = [0; LENGTH];

/// A port over another. Who serves here writes the endpoint 0.0.0.0:0; in connect responses and search responses clients are given the address and
/// the port number that the port is bound to.
#[derive(Drop)]
pub struct NamedPort<P: Port> {
    port: P,
    /// The address and the port number, in an endpoint's octets.
    own: [u8; LENGTH],
}

impl<P: Port> Model for NamedPort<P> {
    ghost use Rattle.std.specs.Prelude.{◌≡◌, length};
    ghost use Rattle.discovery_ends.specs.Naming.{Naming};

    ghost Value = { Naming P };

    ghost view = { λ n. record { port = n.port; own = n.own } };

    ghost invariant = { λ n. length n.own ≡ 6 };
}

impl<P: Port> NamedPort<P> {
    /// A port that is bound to the address (4) and the port number (2) of these octets.
    pub fn new(port: P, own: [u8; LENGTH]) -> NamedPort<P>
        ensures { result ≡ record { port = port; own = own } }
    {
        NamedPort { port, own }
    }

    /// The port, once nothing more is to be given.
    pub fn back(self) -> P
        ensures { result ≡ self.port }
    {
        let NamedPort { port, own: _ } = self;
        port
    }
}

/// 0.0.0.0:0 for the own address and port, and the other way round.
fn exchanged<'a>(own: &'a [u8; LENGTH], there: &'a [u8]) -> &'a [u8]
    ensures { result.now ≡ exchanged own.now there.now }
{
    if there == NOWHERE.as_slice() {
        own.as_slice()
    } else if there == own.as_slice() {
        &NOWHERE
    } else {
        there
    }
}

/// A datagram of at most 300 octets, with the address and port from a place on exchanged.
fn exchanged_at(place: usize, own: &[u8; LENGTH], octets: &[u8]) -> Datagram
    requires place { place + 6 ≤ length octets.now }
    requires most { length octets.now ≤ 300 }
    ensures { result ≡ exchanged_at place own.now octets.now }
{
    let (front, rest) = octets.split_at(place);
    let (there, behind) = rest.split_at(LENGTH);
    let mut out = Datagram::from_slice(front);
    out.extend(exchanged(own, there));
    out.extend(behind);
    out
}

/// Whether a datagram begins so, and has an address and a port from a place on.
fn has_place(front: &[u8; 4], place: usize, octets: &[u8]) -> bool
    requires { place ≤ 10 }
    ensures { result ≡ has_place front.now place octets.now }
{
    octets.len() >= place + LENGTH && octets.len() <= Datagram::CAPACITY && octets[..4] == front[..]
}

/// CONNECT_RESPONSE, and where its endpoint has address and port.
const CONNECT_RESPONSE: [u8; 4] = [0x06, 0x10, 0x02, 0x06];

const IN_CONNECT_RESPONSE: usize = 10;

/// SEARCH_RESPONSE, and where its endpoint has address and port.
const SEARCH_RESPONSE: [u8; 4] = [0x06, 0x10, 0x02, 0x02];

const IN_SEARCH_RESPONSE: usize = 8;

/// Where address and port stand in a datagram that names its sender's endpoint.
fn place_in(octets: &[u8]) -> Option<usize>
    ensures { result ≡ place_in octets.now }
{
    if has_place(&CONNECT_RESPONSE, IN_CONNECT_RESPONSE, octets) {
        Some(IN_CONNECT_RESPONSE)
    } else if has_place(&SEARCH_RESPONSE, IN_SEARCH_RESPONSE, octets) {
        Some(IN_SEARCH_RESPONSE)
    } else {
        None
    }
}

/// Gives a datagram to a client, with the own address and port.
fn give_named<P: Port>(
    port: &mut P,
    own: &[u8; LENGTH],
    to: u32,
    octets: &[u8],
) -> Result<(), PortFault>
    ensures given { OnOk result (Adds (Gave to (named own.now octets.now)) (P.story port.old) (P.story port.new)) }
    ensures failed { OnErr result (GivesOrNot to (named own.now octets.now) (P.story port.old) (P.story port.new)) }
    ensures counts { P.faults port.new ≡ after_call result (P.faults port.old) }
    ensures sound { OnOk result (P.faults port.old ≡ 0) }
{
    match place_in(octets) {
        Some(place) => port.give(to, exchanged_at(place, own, octets).as_slice()),
        None => port.give(to, octets),
    }
}

impl<P: Port> Port for NamedPort<P> {
    ghost use Rattle.discovery_ends.specs.Naming.{named_story};

    ghost story = { λ n. named_story n.own (P.story n.port) };

    ghost faults = { λ n. P.faults n.port };

    #[tactic(auto, using(crate::proofs::Named::took_named, crate::proofs::Named::quiet_named))]
    fn take(&mut self, into: &mut [u8; 512], wait_ms: u32) -> Result<PortPolled, PortFault>
        ensures taken { TakesSo result into.new wait_ms (named_story self.old.own (P.story self.old.port)) (named_story self.new.own (P.story self.new.port)) }
        ensures counts { P.faults self.new.port ≡ after_call result (P.faults self.old.port) }
        ensures sound { OnOk result (P.faults self.old.port ≡ 0) }
        ensures own { self.new.own ≡ self.old.own }
    {
        self.port.take(into, wait_ms)
    }

    #[tactic(auto, using(crate::proofs::Named::gave_named, crate::proofs::Named::gave_or_not_named))]
    fn give(&mut self, to: u32, octets: &[u8]) -> Result<(), PortFault>
        ensures given { OnOk result (Adds (Gave to octets.now) (named_story self.old.own (P.story self.old.port)) (named_story self.new.own (P.story self.new.port))) }
        ensures failed { OnErr result (GivesOrNot to octets.now (named_story self.old.own (P.story self.old.port)) (named_story self.new.own (P.story self.new.port))) }
        ensures counts { P.faults self.new.port ≡ after_call result (P.faults self.old.port) }
        ensures sound { OnOk result (P.faults self.old.port ≡ 0) }
        ensures own { self.new.own ≡ self.old.own }
    {
        give_named(&mut self.port, &self.own, to, octets)
    }
}
