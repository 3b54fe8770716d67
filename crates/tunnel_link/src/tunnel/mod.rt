//! The client's end of a tunnel over a link.

mod calls;

ghost use Rattle.std.specs.Prelude.{◌≡◌, ◌↔◌, Some, None, true};
ghost use Rattle.line_model.specs.Asks.{HasPlace};
ghost use Rattle.line_model.specs.ClientView.{channel};
ghost use Rattle.line_model.specs.Closing.{is_open};
ghost use Rattle.line_model.specs.LinkStory.{IsNewLink, IsTime, IsPlace, newest_time};
ghost use Rattle.line_model.specs.Record.{entries};
ghost use Rattle.tunnel_link.specs.Adds.{TimelyBefore};
ghost use Rattle.tunnel_link.specs.Goes.{Keeps, new_known};
ghost use Rattle.tunnel_link.specs.Kept.{next_due};
ghost use Rattle.tunnel_link.specs.Rights.{IsntRefusal, KeepsRecord, WhereTold, WhileFits};

use crate::known::Known;
use knx_model::nearer;
use line_model::{HubFault, Link};
use std::marker::Model;

/// The client's end of a tunnel over a link. After a fault each call answers that fault, and nothing more is done on the link.
///
/// ```text
///   seek: renew, connect        put: a request          poll: one poll, and the answer to what was got
///   act: what is due by the time (the request again, a heartbeat)
///   leave: asks to end the channel
/// ```
#[derive(Drop)]
pub struct Tunnel<L: Link> {
    link: L,
    known: Known,
}

impl<L: Link> Model for Tunnel<L> {
    ghost use Rattle.tunnel_link.specs.Goes.{Seen, KeepsAll};

    ghost Value = { Seen L };

    ghost view = { λ t. record { link = t.link; known = t.known } };

    ghost invariant = { λ t. KeepsAll t.known (L.story t.link) };
}

impl<L: Link> Tunnel<L> {
    /// Over a link on which nothing was done.
    pub fn begin(link: L) -> Tunnel<L>
        requires { IsNewLink (L.story link) }
        ensures link { result.link ≡ link }
        ensures fault { result.known ≡ new_known }
    {
        Tunnel {
            link,
            known: Known::new(),
        }
    }

    /// The link, once no more is to be done on it.
    pub fn end(self) -> L
        ensures { result ≡ self.link }
    {
        let Tunnel { link, known: _ } = self;
        link
    }

    /// Why nothing more is done on the link, if so.
    pub fn fault(&self) -> Option<HubFault>
        ensures { result ≡ self.now.known.fault }
    {
        self.known.fault
    }

    /// How many datagrams were dropped.
    pub fn dropped(&self) -> u64
        ensures { result ≡ self.now.known.dropped }
    {
        self.known.dropped
    }

    /// How many datagrams were got, awaited connection state responses aside.
    pub fn taken(&self) -> u64
        ensures { result ≡ self.now.known.taken }
    {
        self.known.taken
    }

    /// The time that the link told last, in milliseconds: where its record is told, the newest time of that.
    pub fn now(&self) -> u64
        ensures value { result ≡ L.clock self.now.link }
        ensures told { IsTime result (L.story self.now.link) }
        ensures newest { WhereTold (λ places. result ≡ newest_time (entries places)) (L.story self.now.link) }
    {
        self.link.now()
    }

    /// How many events the link tells of, or entries of its record.
    pub fn at(&self) -> u64
        ensures value { result ≡ L.place self.now.link }
        ensures told { IsPlace result (L.story self.now.link) }
    {
        self.link.at()
    }

    /// Whether a channel is open.
    pub fn is_open(&self) -> bool
        ensures told { WhileFits (λ r. result ≡ is_open (channel r)) self.now.known (L.story self.now.link) }
    {
        self.known.channel.is_open()
    }

    /// Whether a request can be put: the channel is open, and each request in it is acknowledged and confirmed.
    pub fn has_place(&self) -> bool
        ensures told { WhileFits (λ r. (result ≡ true) ↔ HasPlace (channel r)) self.now.known (L.story self.now.link) }
    {
        self.known.has_place()
    }

    /// The nearest time at which something becomes due. Before it nothing is late.
    pub fn deadline(&self) -> Option<u64>
        ensures value { result ≡ next_due self.now.known }
        ensures told { WhileFits (TimelyBefore result) self.now.known (L.story self.now.link) }
    {
        nearer(self.known.channel.deadline(), self.known.flight.deadline())
    }

    /// Nothing more is done on the link.
    pub fn fail(&mut self, fault: HubFault) -> HubFault
        requires { IsntRefusal fault }
        ensures link { self.new.link ≡ self.old.link }
        ensures same { result ≡ fault }
        ensures known { self.new.known ≡ record self.old.known { fault = Some fault } }
        ensures fault { self.new.known.fault ≡ Some fault }
    {
        self.known.fail(fault)
    }

    /// What its type keeps.
    pub fn keeps(&self)
        ensures legal { Keeps (L.story self.now.link) }
        ensures record { KeepsRecord self.now.known (L.story self.now.link) }
    {
        let _link = &self.link;
    }
}
