//! Dials gateways and binds ports over UDP. It tells nothing of what it was given, nor of what came back.

ghost use Rattle.std.specs.Prelude.{◌≡◌, IfErr, IfOk, IsErr, None, Ok, OnOk};
ghost use Rattle.knx_model.specs.Outside.{one_more};
ghost use Rattle.line_model.specs.Dialled.{Tells, after_dial};
ghost use Rattle.line_model.specs.LinkStory as link_story;
ghost use Rattle.line_model.specs.LinkStory.{IsNewLink};
ghost use Rattle.line_model.specs.Polled.{none_failed};
ghost use Rattle.line_model.specs.PortStory as port_story;
ghost use Rattle.line_model.specs.PortStory.{IsNewPort};
ghost use Rattle.knx_edge.specs.Datagrams.{IsAt};

use crate::link::UdpLink;
use crate::port::UdpPort;
use crate::socket::address_of;
use line_model::{DialFailed, Dialer, FaultCounts};
use std::alloc::Global;
use std::io;
use std::net::{Net, UdpSocket};
use std::random::RandomSource;
use std::time::Clock;

/// Dials and binds, each time with a socket of its own.
#[derive(Drop)]
pub struct UdpDialer<'a, R> {
    rt: &'a R,
    alloc: Global,
    dials: u64,
    counts: FaultCounts,
}

impl<'a, R: Net + Clock + RandomSource> UdpDialer<'a, R> {
    /// A dialer of which no call was made yet.
    pub fn new(rt: &'a R, alloc: Global) -> Self
        ensures { (result.dials ≡ 0) × (result.counts ≡ none_failed) }
    {
        UdpDialer {
            rt,
            alloc,
            dials: 0,
            counts: FaultCounts::none(),
        }
    }

    /// What was opened, or a failure that is counted.
    fn answer<T>(&mut self, opened: io::Result<T>) -> Result<T, DialFailed>
        ensures ok { IfOk opened (λ x. (result ≡ Ok x) × (self.new ≡ self.old)) }
        ensures error { IfErr opened (λ _. IsErr result) }
        ensures counts { self.new.counts ≡ after_dial result self.old.counts }
        ensures dials { self.new.dials ≡ self.old.dials }
    {
        match opened {
            Ok(opened) => Ok(opened),
            Err(_) => {
                self.counts.fail();
                Err(DialFailed)
            }
        }
    }
}

impl<'a, R: Net + Clock + RandomSource + Sync> Dialer for UdpDialer<'a, R> {
    type L = UdpLink<'a, R, UdpSocket>;

    type P = UdpPort<'a, R, UdpSocket>;

    ghost now = { λ d. record { counts = d.counts; dials = d.dials; given = None; link_back = link_story.Untold; port_back = port_story.Untold } };

    fn dial(&mut self, host: [u8; 4], port: u16) -> Result<UdpLink<'a, R, UdpSocket>, DialFailed>
        ensures fresh { OnOk result (IsNewLink link_story.Untold) }
        ensures tells { Tells host port None }
        ensures gateway { IfOk result (λ l. IsAt host port l.gateway) }
        ensures sound { IfOk result (λ l. l.faults ≡ none_failed) }
        ensures counts { self.new.counts ≡ after_dial result self.old.counts }
        ensures dials { self.new.dials ≡ one_more self.old.dials }
    {
        self.dials = self.dials.saturating_add(1);
        let opened = UdpLink::open(self.rt, address_of(host, port));
        self.answer(opened)
    }

    fn bind(&mut self, host: [u8; 4], port: u16) -> Result<UdpPort<'a, R, UdpSocket>, DialFailed>
        ensures fresh { OnOk result (IsNewPort port_story.Untold) }
        ensures tells { Tells host port None }
        ensures sound { IfOk result (λ p. p.faults ≡ 0) }
        ensures counts { self.new.counts ≡ after_dial result self.old.counts }
        ensures dials { self.new.dials ≡ one_more self.old.dials }
    {
        self.dials = self.dials.saturating_add(1);
        let opened = UdpPort::open(self.rt, self.alloc, address_of(host, port));
        self.answer(opened)
    }

    fn hang(&mut self, line: UdpLink<'a, R, UdpSocket>) {
        self.counts.take_link(line.faults());
    }

    fn shut(&mut self, door: UdpPort<'a, R, UdpSocket>) {
        self.counts.take_port(door.faults());
    }
}

#[cfg(test)]
mod tests {
    use super::*;
    use line_model::Link;
    use std::net::Ipv4Addr;
    use std::test::Fail;

    const HOST: [u8; 4] = [127, 0, 0, 1];

    #[test]
    fn a_port_that_is_taken_is_not_bound(rt: HostRuntime) -> Result<(), Fail> {
        let other = UdpSocket::bind(&rt, (Ipv4Addr::LOCALHOST, 0))?;
        let taken = other.local_addr()?.port();
        let mut dialer = UdpDialer::new(&rt, rt.alloc());
        assert!(rt; dialer.bind(HOST, taken).is_err());
        assert_eq!(rt; dialer.counts.failed, 1);
        let door = dialer.bind(HOST, 0).ok().ok_or("no port")?;
        dialer.shut(door);
        assert_eq!(rt; dialer.counts.failed, 1);
        Ok(())
    }

    #[test]
    fn the_faults_of_a_link_are_taken_in(rt: HostRuntime) -> Result<(), Fail> {
        let mut dialer = UdpDialer::new(&rt, rt.alloc());
        let mut line = dialer.dial(HOST, 3671).ok().ok_or("no link")?;
        // no datagram is so long
        let long = Vec::from_elem(rt.alloc(), 0, 65_536)?;
        for _ in 0..2 {
            assert!(rt; line.send(&long).is_err());
        }
        assert_eq!(rt; line.faults().failed, 2);
        dialer.hang(line);
        assert_eq!(rt; dialer.counts.failed, 2);
        Ok(())
    }
}
