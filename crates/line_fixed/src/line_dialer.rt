//! A dialer of one link.

ghost use Rattle.std.specs.Prelude.{◌≡◌, None, Some, option_copied};
ghost use Rattle.line_model.specs.LinkStory.{IsNewLink};
ghost use Rattle.line_model.specs.Polled.{none_failed};

use crate::dialer::Address;
use crate::failing::FailingLink;
use crate::port::FixedPort;
use line_model::{DialFailed, Dialer, FaultCounts, Link};
use std::marker::Model;

/// A dialer that hands a link out once, whatever it is, and keeps it when it comes back: over the simulated line, one that tells its events. Of the link the call
/// with the number `fails_at` fails, none where that is 0. It binds no port, and tells the host and the port number that it was given last.
#[derive(Drop)]
pub struct LineDialer<N: Link + Send> {
    line: Option<N>,
    fails_at: u64,
    line_back: Option<N>,
    port_back: Option<FixedPort>,
    given: Option<Address>,
    dials: u64,
    counts: FaultCounts,
}

impl<N: Link + Send> Model for LineDialer<N> {
    ghost use Rattle.std.specs.Prelude.{IfSome, option_map};
    ghost use Rattle.line_model.specs.LinkStory.{IsNewLink};
    ghost use Rattle.line_fixed.specs.Dialling.{address_of};
    ghost use Rattle.line_fixed.specs.OneLine.{OneLine};

    ghost Value = { OneLine N };

    ghost view = { λ d. record { line = d.line; fails_at = d.fails_at; line_back = d.line_back; port_back = d.port_back; given = option_map address_of d.given; dials = d.dials; counts = d.counts } };

    ghost invariant = { λ d. IfSome d.line (λ line. IsNewLink (N.story line)) };
}

impl<N: Link + Send> LineDialer<N> {
    /// A dialer of which no call was made yet.
    pub fn new(line: N, fails_at: u64) -> LineDialer<N>
        requires { IsNewLink (N.story line) }
        ensures { result ≡ record { line = Some line; fails_at = fails_at; line_back = None; port_back = None; given = None; dials = 0; counts = none_failed } }
    {
        LineDialer {
            line: Some(line),
            fails_at,
            line_back: None,
            port_back: None,
            given: None,
            dials: 0,
            counts: FaultCounts::none(),
        }
    }

    /// The link that it took back.
    pub fn line_back(&self) -> Option<&N>
        ensures { option_copied result ≡ self.now.line_back }
    {
        self.line_back.as_ref()
    }

    /// How many calls failed, and how many found no memory, those of what was taken back among them.
    pub fn counts(&self) -> FaultCounts
        ensures { result ≡ self.now.counts }
    {
        self.counts
    }
}

impl<N: Link + Send> Dialer for LineDialer<N> {
    ghost use Rattle.line_fixed.specs.Dialling.{port_told};
    ghost use Rattle.line_fixed.specs.OneLine.{line_told};

    type L = FailingLink<N>;

    type P = FixedPort;

    ghost now = { λ d. record { counts = d.counts; dials = d.dials; given = d.given; link_back = line_told N.story d.line_back; port_back = port_told d.port_back } };

    fn dial(&mut self, host: [u8; 4], port: u16) -> Result<FailingLink<N>, DialFailed> {
        self.dials = self.dials.saturating_add(1);
        self.given = Some(Address { host, port });
        match self.line.take() {
            Some(line) => Ok(FailingLink::new(line, self.fails_at)),
            None => {
                self.counts.fail();
                Err(DialFailed)
            }
        }
    }

    fn bind(&mut self, host: [u8; 4], port: u16) -> Result<FixedPort, DialFailed> {
        self.dials = self.dials.saturating_add(1);
        self.given = Some(Address { host, port });
        self.counts.fail();
        Err(DialFailed)
    }

    fn hang(&mut self, line: FailingLink<N>) {
        let FailingLink {
            link,
            fails_at: _,
            calls: _,
            faults,
        } = line;
        self.counts.take_link(faults);
        self.line_back = Some(link);
    }

    fn shut(&mut self, door: FixedPort) {
        self.counts.take_port(door.faults);
        self.port_back = Some(door);
    }
}
