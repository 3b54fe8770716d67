//! The link to a gateway over UDP. It tells nothing of what it sends and gets; but what its caller sees of it is what he sees of a link that tells its
//! record with a clock that runs: a sending is given to the socket whole, what is got is a datagram that came, each call that is answered is one
//! entry, and the clock is read in polls alone and never runs back. What comes from another host than the gateway's is passed over. Behind a call that
//! failed, or found no memory, each fails, and nothing more is done at the socket.

ghost use Rattle.std.specs.IoError.{error_kind};
ghost use Rattle.std.specs.Prelude.{◌≡◌, ◌≢◌, ◌≤◌, Err, IfErr, IfOk, Ok, OnErr, OnOk};
ghost use Rattle.knx_model.specs.Outside.{one_more};
ghost use Rattle.line_model.specs.LinkStory.{Renews, RenewsOrNot, Sends, SendsOrNot, Untold};
ghost use Rattle.line_model.specs.Polled.{PollsSo, after_call, none_failed};
ghost use Rattle.knx_edge.specs.Datagrams.{Gives, IsUnused, LinkBrings, entries_after, link_fault_of};

use crate::disk::memory_of;
use crate::socket::{Datagrams, LONGEST, Senders, address_of, receive_of, send_whole};
use line_model::{FaultCounts, Link, LinkFault, Polled};
use std::io;
use std::net::{Net, SocketAddr};
use std::time::{Clock, Instant};

/// A link to a gateway: a socket on a free port.
#[derive(Drop)]
pub struct UdpLink<'a, R, S> {
    rt: &'a R,
    socket: S,
    gateway: SocketAddr,
    started: Instant,
    /// The last time that was read, at the end of the last poll, in milliseconds since the link was opened.
    time: u64,
    /// How many datagrams were sent, new endpoints taken and waits ended.
    done: u64,
    faults: FaultCounts,
}

impl<'a, R: Net + Clock, S: Datagrams> UdpLink<'a, R, S> {
    /// A link to a gateway, of which no call was made yet.
    pub fn open(rt: &'a R, gateway: SocketAddr) -> io::Result<Self>
        ensures gateway { IfOk result (λ l. l.gateway ≡ gateway) }
        ensures unused { IfOk result (λ l. IsUnused (S.sent l.socket)) }
        ensures faults { IfOk result (λ l. l.faults ≡ none_failed) }
    {
        Ok(UdpLink {
            rt,
            socket: S::bound(rt, address_of([0; 4], 0))?,
            gateway,
            started: Instant::now(rt)?,
            time: 0,
            done: 0,
            faults: FaultCounts::none(),
        })
    }

    /// How many calls failed, and how many found no memory, those that were refused behind such a one among them.
    pub fn faults(&self) -> FaultCounts
        ensures { result ≡ self.now.faults }
    {
        self.faults
    }

    /// A call begins. Behind one that failed, or found no memory, it is refused, and counted as one that failed.
    fn begin(&mut self) -> Result<(), LinkFault>
        ensures sound { OnOk result ((self.old.faults ≡ none_failed) × (self.new ≡ self.old)) }
        ensures over { OnErr result (self.old.faults ≢ none_failed) }
        ensures others { self.new ≡ record self.old { faults = after_call result self.old.faults } }
    {
        self.faults.begin()
    }

    /// Reads the clock; a time before the last one is that.
    fn read_clock(&mut self) -> io::Result<()>
        ensures time { self.old.time ≤ self.new.time }
        ensures failed { OnErr result (self.new.time ≡ self.old.time) }
        ensures others { self.new ≡ record self.old { time = self.new.time } }
    {
        let passed = self.started.elapsed(self.rt)?.as_millis();
        let time = u64::try_from(passed).unwrap_or(u64::MAX);
        self.time = self.time.max(time);
        Ok(())
    }

    /// Sends a datagram to the gateway.
    fn put(&mut self, octets: &[u8]) -> io::Result<()>
        ensures given { OnOk result (Gives (record { octets = octets.now; peer = self.old.gateway }) (S.sent self.old.socket) (S.sent self.new.socket)) }
        ensures others { self.new ≡ record self.old { socket = self.new.socket } }
    {
        send_whole(&mut self.socket, octets, self.gateway)
    }

    /// Waits for a datagram of the gateway's host, and reads the clock.
    fn receive(&mut self, into: &mut [u8; LONGEST], wait_ms: u32) -> io::Result<Polled>
        ensures brings { IfOk result (λ polled. LinkBrings self.old.gateway polled into.new (S.coming self.old.socket) (S.coming self.new.socket)) }
        ensures polled { IfOk result (λ polled. PollsSo (Ok polled) into.new wait_ms self.new.time Untold Untold) }
        ensures time { self.old.time ≤ self.new.time }
        ensures failed { OnErr result (self.new.time ≡ self.old.time) }
        ensures others { self.new ≡ record self.old { time = self.new.time; socket = self.new.socket } }
    {
        let senders = Senders::at(self.gateway);
        let came = receive_of(self.rt, &mut self.socket, senders, into, wait_ms)?;
        self.read_clock()?;
        match came {
            Some((count, _)) => Ok(Polled::Got(count)),
            None => Ok(Polled::Quiet),
        }
    }

    /// Takes a socket on a free port in place of the one that it has.
    fn bind_anew(&mut self) -> io::Result<()>
        ensures unused { OnOk result (IsUnused (S.sent self.new.socket)) }
        ensures kept { OnErr result (self.new ≡ self.old) }
        ensures others { self.new ≡ record self.old { socket = self.new.socket } }
    {
        self.socket = S::bound(self.rt, address_of([0; 4], 0))?;
        Ok(())
    }

    /// The answer of a call: one that was done is counted, and so is an error.
    fn answer<T>(&mut self, done: io::Result<T>) -> Result<T, LinkFault>
        ensures ok { IfOk done (λ x. (result ≡ Ok x) × (self.new ≡ record self.old { done = one_more self.old.done })) }
        ensures error { IfErr done (λ error. (result ≡ Err (link_fault_of (error_kind error))) × (self.new ≡ record self.old { faults = after_call result self.old.faults })) }
        ensures counts { self.new.faults ≡ after_call result self.old.faults }
        ensures events { self.old.done ≤ self.new.done }
        ensures entry { self.new.done ≡ entries_after result self.old.done }
    {
        let error = match done {
            Ok(done) => {
                self.done = self.done.saturating_add(1);
                return Ok(done);
            }
            Err(error) => error,
        };
        if let Some(want) = memory_of(&error) {
            return self.faults.count(Err(LinkFault::NoMemory(want)));
        }
        self.faults.count(Err(LinkFault::Failed))
    }
}

impl<R: Net + Clock, S: Datagrams> Link for UdpLink<'_, R, S> {
    ghost use Rattle.line_model.specs.LinkStory.{Untold};
    ghost use Rattle.std.specs.Prelude.{[]};

    ghost story = { λ l. Untold };

    ghost script = { λ l. [] };

    ghost clock = { λ l. l.time };

    ghost place = { λ l. l.done };

    ghost faults = { λ l. l.faults };

    fn send(&mut self, octets: &[u8]) -> Result<(), LinkFault>
        ensures sent { OnOk result (Sends octets.now Untold Untold) }
        ensures failed { OnErr result (SendsOrNot octets.now Untold Untold) }
        ensures given { OnOk result (Gives (record { octets = octets.now; peer = self.old.gateway }) (S.sent self.old.socket) (S.sent self.new.socket)) }
        ensures gateway { self.new.gateway ≡ self.old.gateway }
        ensures counts { self.new.faults ≡ after_call result self.old.faults }
        ensures sound { OnOk result (self.old.faults ≡ none_failed) }
        ensures over { self.old.faults ≢ none_failed → self.new ≡ record self.old { faults = self.new.faults } }
        ensures time { self.new.time ≡ self.old.time }
        ensures events { self.old.done ≤ self.new.done }
        ensures entry { self.new.done ≡ entries_after result self.old.done }
    {
        self.begin()?;
        let sent = self.put(octets);
        self.answer(sent)
    }

    fn renew(&mut self) -> Result<(), LinkFault>
        ensures renewed { OnOk result (Renews Untold Untold) }
        ensures failed { OnErr result (RenewsOrNot Untold Untold) }
        ensures unused { OnOk result (IsUnused (S.sent self.new.socket)) }
        ensures gateway { self.new.gateway ≡ self.old.gateway }
        ensures socket { OnErr result (self.new.socket ≡ self.old.socket) }
        ensures counts { self.new.faults ≡ after_call result self.old.faults }
        ensures sound { OnOk result (self.old.faults ≡ none_failed) }
        ensures over { self.old.faults ≢ none_failed → self.new ≡ record self.old { faults = self.new.faults } }
        ensures time { self.new.time ≡ self.old.time }
        ensures events { self.old.done ≤ self.new.done }
        ensures entry { self.new.done ≡ entries_after result self.old.done }
    {
        self.begin()?;
        let renewed = self.bind_anew();
        self.answer(renewed)
    }

    fn poll(&mut self, into: &mut [u8; LONGEST], wait_ms: u32) -> Result<Polled, LinkFault>
        ensures polled { PollsSo result into.new wait_ms self.new.time Untold Untold }
        ensures brings { IfOk result (λ polled. LinkBrings self.old.gateway polled into.new (S.coming self.old.socket) (S.coming self.new.socket)) }
        ensures gateway { self.new.gateway ≡ self.old.gateway }
        ensures counts { self.new.faults ≡ after_call result self.old.faults }
        ensures sound { OnOk result (self.old.faults ≡ none_failed) }
        ensures over { self.old.faults ≢ none_failed → self.new ≡ record self.old { faults = self.new.faults } }
        ensures time { self.old.time ≤ self.new.time }
        ensures failed { OnErr result (self.new.time ≡ self.old.time) }
        ensures events { self.old.done ≤ self.new.done }
        ensures entry { self.new.done ≡ entries_after result self.old.done }
    {
        self.begin()?;
        let polled = self.receive(into, wait_ms);
        self.answer(polled)
    }

    fn now(&self) -> u64 {
        self.time
    }

    fn at(&self) -> u64 {
        self.done
    }
}

#[cfg(test)]
mod tests {
    use super::*;
    use crate::stops::Stops;
    use std::net::{IpAddr, Ipv4Addr, UdpSocket};
    use std::test::Fail;

    const GATEWAY: [u8; 4] = [127, 0, 0, 1];

    /// Whether a poll was quiet.
    fn is_quiet<L: Link>(link: &mut L, wait_ms: u32) -> bool {
        matches!(link.poll(&mut [0; LONGEST], wait_ms), Ok(Polled::Quiet))
    }

    #[test]
    fn a_quiet_wait_takes_its_time(rt: HostRuntime) -> Result<(), Fail> {
        let mut link: UdpLink<HostRuntime, UdpSocket> = UdpLink::open(
            &rt,
            address_of(GATEWAY, 3671),
        )?;
        // what a gateway anywhere sends comes to it
        assert!(rt; link.socket.local_addr()?.ip() == IpAddr::V4(Ipv4Addr::UNSPECIFIED));
        assert!(rt; is_quiet(&mut link, 0));
        let before = link.now();
        assert!(rt; is_quiet(&mut link, 30));
        let waited = link.now().saturating_sub(before);
        assert!(rt; 30 <= waited && waited < 10_000);
        assert_eq!(rt; link.at(), 2);
        Ok(())
    }

    #[test]
    fn only_the_gateways_host_is_heard(rt: HostRuntime) -> Result<(), Fail> {
        let mut link: UdpLink<HostRuntime, UdpSocket> = UdpLink::open(
            &rt,
            address_of(GATEWAY, 3671),
        )?;
        let at = address_of(GATEWAY, link.socket.local_addr()?.port());
        let stranger = UdpSocket::bind(&rt, address_of([127, 0, 0, 2], 0))?;
        let other_port = UdpSocket::bind(&rt, address_of(GATEWAY, 0))?;
        for _ in 0..3 {
            let _ = stranger.send_to(b"forged", at)?;
        }
        assert!(rt; is_quiet(&mut link, 30));
        let _ = stranger.send_to(b"forged", at)?;
        let _ = other_port.send_to(b"told", at)?;
        assert!(rt; matches!(link.poll(&mut [0; LONGEST], 1000), Ok(Polled::Got(4))));
        assert!(rt; is_quiet(&mut link, 0));
        Ok(())
    }

    #[test]
    fn a_clock_that_stops_is_a_failure(rt: HostRuntime) -> Result<(), Fail> {
        let stops = Stops::new(&rt);
        let mut link: UdpLink<Stops<HostRuntime>, UdpSocket> = UdpLink::open(
            &stops,
            address_of(GATEWAY, 3671),
        )?;
        stops.stop();
        // it is read in polls alone
        assert!(rt; link.send(b"sent").is_ok());
        assert!(rt; link.renew().is_ok());
        assert!(rt; link.socket.local_addr()?.ip() == IpAddr::V4(Ipv4Addr::UNSPECIFIED));
        assert!(rt; !is_quiet(&mut link, 0));
        assert_eq!(rt; link.faults().failed, 1);
        // and a link that has failed is over
        assert!(rt; link.send(b"sent").is_err());
        assert!(rt; link.renew().is_err());
        assert_eq!(rt; link.faults().failed, 3);
        assert_eq!(rt; link.at(), 2);
        Ok(())
    }
}
