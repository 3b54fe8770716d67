//! A dialer of fixed data.

ghost use Rattle.std.specs.Prelude.{◌≡◌, IfOk, IfSome, IsErr, MatchOption, None, Ok, Some, option_copied, option_map};
ghost use Rattle.knx_model.specs.Outside.{one_more};
ghost use Rattle.line_model.specs.Dialled.{Tells, after_dial, with_link, with_port};
ghost use Rattle.line_model.specs.LinkStory.{IsNewLink, Recorded as LinkTold};
ghost use Rattle.line_model.specs.Polled.{none_failed};
ghost use Rattle.line_model.specs.PortStory.{IsNewPort, Recorded as PortTold};
ghost use Rattle.line_fixed.specs.Dialling.{IsUnusedLink, IsUnusedPort, address_of, link_told, port_told};
ghost use Rattle.line_fixed.specs.Fixed.{clock_by};

use crate::link::FixedLink;
use crate::port::FixedPort;
use line_model::{DialFailed, Dialer, FaultCounts};
use std::marker::Model;

/// A host and a port number.
#[derive(Clone, Copy, Drop)]
pub struct Address {
    pub host: [u8; 4],
    pub port: u16,
}

/// A dialer that hands its link and its port out once, keeps those that it takes back, and tells the host and the port number that it was
/// given last. A call of `dial` or `bind` that finds none fails.
#[derive(Drop)]
pub struct FixedDialer {
    link: Option<FixedLink>,
    port: Option<FixedPort>,
    link_back: Option<FixedLink>,
    port_back: Option<FixedPort>,
    given: Option<Address>,
    dials: u64,
    counts: FaultCounts,
}

impl Model for FixedDialer {
    ghost use Rattle.std.specs.Prelude.{IfSome, option_map};
    ghost use Rattle.line_fixed.specs.Dialling.{Dialling, IsUnusedLink, IsUnusedPort, address_of};

    ghost Value = { Dialling };

    ghost view = { λ d. record { link = d.link; port = d.port; link_back = d.link_back; port_back = d.port_back; given = option_map address_of d.given; dials = d.dials; counts = d.counts } };

    ghost invariant = { λ d. IfSome d.link IsUnusedLink × IfSome d.port IsUnusedPort };
}

impl FixedDialer {
    /// A dialer of which no call was made yet.
    pub fn new(link: Option<FixedLink>, port: Option<FixedPort>) -> FixedDialer
        requires link { IfSome link IsUnusedLink }
        requires port { IfSome port IsUnusedPort }
        ensures { result ≡ record { link = link; port = port; link_back = None; port_back = None; given = None; dials = 0; counts = none_failed } }
    {
        FixedDialer {
            link,
            port,
            link_back: None,
            port_back: None,
            given: None,
            dials: 0,
            counts: FaultCounts::none(),
        }
    }

    /// The link that it took back last.
    pub fn link_back(&self) -> Option<&FixedLink>
        ensures { option_copied result ≡ self.now.link_back }
    {
        self.link_back.as_ref()
    }

    /// The port that it took back last.
    pub fn port_back(&self) -> Option<&FixedPort>
        ensures { option_copied result ≡ self.now.port_back }
    {
        self.port_back.as_ref()
    }

    /// The host and the port number that `dial` or `bind` was given last.
    pub fn given(&self) -> Option<Address>
        ensures { option_map address_of result ≡ self.now.given }
    {
        self.given
    }

    /// How many calls of `dial` and `bind` there were.
    pub fn dials(&self) -> u64
        ensures { result ≡ self.now.dials }
    {
        self.dials
    }

    /// How many calls failed, and how many found no memory, those of what was taken back among them.
    pub fn counts(&self) -> FaultCounts
        ensures { result ≡ self.now.counts }
    {
        self.counts
    }
}

impl Dialer for FixedDialer {
    ghost use Rattle.line_fixed.specs.Dialling.{link_told, port_told};

    type L = FixedLink;

    type P = FixedPort;

    ghost now = { λ d. record { counts = d.counts; dials = d.dials; given = d.given; link_back = link_told d.link_back; port_back = port_told d.port_back } };

    fn dial(&mut self, host: [u8; 4], port: u16) -> Result<FixedLink, DialFailed>
        ensures fresh { IfOk result (λ l. IsNewLink (LinkTold (clock_by l.lasting) l.entries)) }
        ensures sound { IfOk result (λ l. l.faults ≡ none_failed) }
        ensures counts { self.new.counts ≡ after_dial result self.old.counts }
        ensures tells { Tells host port self.new.given }
        ensures dials { self.new.dials ≡ one_more self.old.dials }
        ensures link_stays { link_told self.new.link_back ≡ link_told self.old.link_back }
        ensures port_stays { port_told self.new.port_back ≡ port_told self.old.port_back }
        // the link is handed out, where there is one
        ensures answer { MatchOption self.old.link (IsErr result) (λ l. result ≡ Ok l) }
        ensures after { self.new ≡ record self.old { link = None; given = Some (record { host = host; port = port }); dials = one_more self.old.dials; counts = after_dial result self.old.counts } }
    {
        self.dials = self.dials.saturating_add(1);
        self.given = Some(Address { host, port });
        match self.link.take() {
            Some(link) => Ok(link),
            None => {
                self.counts.fail();
                Err(DialFailed)
            }
        }
    }

    fn bind(&mut self, host: [u8; 4], port: u16) -> Result<FixedPort, DialFailed>
        ensures fresh { IfOk result (λ p. IsNewPort (PortTold p.items)) }
        ensures sound { IfOk result (λ p. p.faults ≡ 0) }
        ensures counts { self.new.counts ≡ after_dial result self.old.counts }
        ensures tells { Tells host port self.new.given }
        ensures dials { self.new.dials ≡ one_more self.old.dials }
        ensures link_stays { link_told self.new.link_back ≡ link_told self.old.link_back }
        ensures port_stays { port_told self.new.port_back ≡ port_told self.old.port_back }
        ensures answer { MatchOption self.old.port (IsErr result) (λ p. result ≡ Ok p) }
        ensures after { self.new ≡ record self.old { port = None; given = Some (record { host = host; port = port }); dials = one_more self.old.dials; counts = after_dial result self.old.counts } }
    {
        self.dials = self.dials.saturating_add(1);
        self.given = Some(Address { host, port });
        match self.port.take() {
            Some(door) => Ok(door),
            None => {
                self.counts.fail();
                Err(DialFailed)
            }
        }
    }

    fn hang(&mut self, line: FixedLink)
        ensures counts { self.new.counts ≡ with_link line.faults self.old.counts }
        ensures told { link_told self.new.link_back ≡ LinkTold (clock_by line.lasting) line.entries }
        ensures given { self.new.given ≡ self.old.given }
        ensures dials { self.new.dials ≡ self.old.dials }
        ensures after { self.new ≡ record self.old { link_back = Some line; counts = with_link line.faults self.old.counts } }
    {
        self.counts.take_link(line.faults);
        self.link_back = Some(line);
    }

    fn shut(&mut self, door: FixedPort)
        ensures counts { self.new.counts ≡ with_port door.faults self.old.counts }
        ensures told { port_told self.new.port_back ≡ PortTold door.items }
        ensures given { self.new.given ≡ self.old.given }
        ensures dials { self.new.dials ≡ self.old.dials }
        ensures after { self.new ≡ record self.old { port_back = Some door; counts = with_port door.faults self.old.counts } }
    {
        self.counts.take_port(door.faults);
        self.port_back = Some(door);
    }
}
