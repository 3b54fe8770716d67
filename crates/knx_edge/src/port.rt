//! The port where the gateway serves its clients over UDP. It tells nothing of what it takes and gives.

ghost use Rattle.std.specs.IoError.{error_kind};
ghost use Rattle.std.specs.Prelude.{◌≡◌, ◌≢◌, ◌≤◌, [], Err, IfErr, IfOk, IfSome, Ok, OnErr, OnOk, slice_get};
ghost use Rattle.line_model.specs.PortStory.{Adds, Gave, GivesOrNot, TakesSo, Untold, after_call};
ghost use Rattle.knx_edge.specs.declared.socket.Senders.TheVariants.{Answerable};
ghost use Rattle.knx_edge.specs.Datagrams.{BringsOf, GivesTo, NamesOn, PortBrings, port_fault_of};

use crate::clients::Clients;
use crate::disk::memory_of;
use crate::socket::{Datagrams, LONGEST, Senders, left_of, receive_of, send_whole};
use line_model::{Port, PortFault, PortPolled};
use std::alloc::Global;
use std::io::{self, ErrorKind};
use std::net::{Net, SocketAddr};
use std::random::RandomSource;
use std::time::{Clock, Instant};

/// A port: a socket, and the clients from which datagrams came. A datagram doesn't begin a wait anew: one that goes on since then ends when its
/// time is over, be there datagrams or not, so that quiet ends come however many datagrams do. Behind a call that failed each fails, and nothing more is
/// done at the socket.
#[derive(Drop)]
pub struct UdpPort<'a, R, S> {
    rt: &'a R,
    socket: S,
    clients: Clients,
    waits_since: Option<Instant>,
    faults: u64,
}

impl<'a, R: Net + Clock + RandomSource, S: Datagrams> UdpPort<'a, R, S> {
    /// A port at an address, at which nothing was taken yet.
    pub fn open(rt: &'a R, alloc: Global, at: SocketAddr) -> io::Result<Self>
        ensures clients { IfOk result (λ p. p.clients ≡ []) }
        ensures faults { IfOk result (λ p. p.faults ≡ 0) }
    {
        Ok(UdpPort {
            rt,
            socket: S::bound(rt, at)?,
            clients: Clients::none(rt, alloc)?,
            waits_since: None,
            faults: 0,
        })
    }

    /// How many calls failed, those that were refused behind such a one among them.
    pub fn faults(&self) -> u64
        ensures { result ≡ self.now.faults }
    {
        self.faults
    }

    /// A call begins. Behind one that failed it is refused, and counted.
    fn begin(&mut self) -> Result<(), PortFault>
        ensures sound { OnOk result ((self.old.faults ≡ 0) × (self.new ≡ self.old)) }
        ensures over { OnErr result (self.old.faults ≢ 0) }
        ensures others { self.new ≡ record self.old { faults = after_call result self.old.faults } }
    {
        if self.faults == 0 {
            return Ok(());
        }
        self.faults = self.faults.saturating_add(1);
        Err(PortFault::Failed)
    }

    /// What is left of the wait that goes on, or of the one that begins; none where it is over.
    fn left(&mut self, wait_ms: u32) -> io::Result<Option<u32>>
        ensures { self.new ≡ record self.old { waits_since = self.new.waits_since } }
    {
        match self.waits_since {
            Some(since) => Ok(left_of(wait_ms, since.elapsed(self.rt)?)),
            None => {
                self.waits_since = Some(Instant::now(self.rt)?);
                Ok(Some(wait_ms))
            }
        }
    }

    /// The first datagram that can be answered and comes before the wait that goes on is over.
    fn first(
        &mut self,
        into: &mut [u8; LONGEST],
        wait_ms: u32,
    ) -> io::Result<Option<(usize, SocketAddr)>>
        ensures within { IfOk result (λ got. IfSome got (λ came. came.0 ≤ 512)) }
        ensures brings { IfOk result (λ got. BringsOf Answerable got into.new (S.coming self.old.socket) (S.coming self.new.socket)) }
        ensures others { (self.new.clients ≡ self.old.clients) × (self.new.faults ≡ self.old.faults) }
    {
        match self.left(wait_ms)? {
            Some(left) => receive_of(self.rt, &mut self.socket, Senders::Answerable, into, left),
            None => Ok(None),
        }
    }

    /// Waits for a datagram that can be answered.
    fn receive(&mut self, into: &mut [u8; LONGEST], wait_ms: u32) -> io::Result<PortPolled>
        ensures brings { IfOk result (λ polled. PortBrings polled into.new self.new.clients (S.coming self.old.socket) (S.coming self.new.socket)) }
        ensures taken { IfOk result (λ polled. TakesSo (Ok polled) into.new wait_ms Untold Untold) }
        ensures clients { NamesOn self.old.clients self.new.clients }
        ensures others { self.new.faults ≡ self.old.faults }
    {
        match self.first(into, wait_ms)? {
            Some((len, from)) => {
                let from = self.clients.number(from)?;
                Ok(PortPolled::Got { len, from })
            }
            None => {
                self.waits_since = None;
                Ok(PortPolled::Quiet)
            }
        }
    }

    /// Sends a datagram to a client.
    fn put(&mut self, to: u32, octets: &[u8]) -> io::Result<()>
        ensures given { OnOk result (GivesTo (slice_get self.old.clients to) octets.now (S.sent self.old.socket) (S.sent self.new.socket)) }
        ensures others { self.new ≡ record self.old { socket = self.new.socket } }
    {
        match self.clients.address(to) {
            Some(client) => send_whole(&mut self.socket, octets, client),
            None => Err(io::Error::from(ErrorKind::NotFound)),
        }
    }

    /// The answer of a call: an error is counted, but want of memory.
    fn answer<T>(&mut self, done: io::Result<T>) -> Result<T, PortFault>
        ensures ok { IfOk done (λ x. (result ≡ Ok x) × (self.new ≡ self.old)) }
        ensures error { IfErr done (λ error. (result ≡ Err (port_fault_of (error_kind error))) × (self.new ≡ record self.old { faults = after_call result self.old.faults })) }
        ensures counts { self.new.faults ≡ after_call result self.old.faults }
    {
        let error = match done {
            Ok(done) => return Ok(done),
            Err(error) => error,
        };
        if let Some(want) = memory_of(&error) {
            return Err(PortFault::NoMemory(want));
        }
        self.faults = self.faults.saturating_add(1);
        Err(PortFault::Failed)
    }
}

impl<R: Net + Clock + RandomSource, S: Datagrams> Port for UdpPort<'_, R, S> {
    ghost use Rattle.line_model.specs.PortStory.{Untold};

    ghost story = { λ p. Untold };

    ghost faults = { λ p. p.faults };

    fn take(&mut self, into: &mut [u8; LONGEST], wait_ms: u32) -> Result<PortPolled, PortFault>
        ensures taken { TakesSo result into.new wait_ms Untold Untold }
        ensures brings { IfOk result (λ polled. PortBrings polled into.new self.new.clients (S.coming self.old.socket) (S.coming self.new.socket)) }
        ensures clients { NamesOn self.old.clients self.new.clients }
        ensures counts { self.new.faults ≡ after_call result self.old.faults }
        ensures sound { OnOk result (self.old.faults ≡ 0) }
        ensures over { self.old.faults ≢ 0 → self.new ≡ record self.old { faults = self.new.faults } }
    {
        self.begin()?;
        let taken = self.receive(into, wait_ms);
        self.answer(taken)
    }

    fn give(&mut self, to: u32, octets: &[u8]) -> Result<(), PortFault>
        ensures given { OnOk result (Adds (Gave to octets.now) Untold Untold) }
        ensures failed { OnErr result (GivesOrNot to octets.now Untold Untold) }
        ensures put { OnOk result (GivesTo (slice_get self.old.clients to) octets.now (S.sent self.old.socket) (S.sent self.new.socket)) }
        ensures clients { self.new.clients ≡ self.old.clients }
        ensures counts { self.new.faults ≡ after_call result self.old.faults }
        ensures sound { OnOk result (self.old.faults ≡ 0) }
        ensures over { self.old.faults ≢ 0 → self.new ≡ record self.old { faults = self.new.faults } }
    {
        self.begin()?;
        let given = self.put(to, octets);
        self.answer(given)
    }
}

#[cfg(test)]
mod tests {
    use super::*;
    use crate::dial::UdpDialer;
    use line_model::{Dialer, Link, Polled};
    use std::net::{IpAddr, Ipv4Addr, UdpSocket};
    use std::test::Fail;

    const HOST: [u8; 4] = [127, 0, 0, 1];

    /// Longer than a test takes, in milliseconds.
    const LONG: u32 = 10_000;

    /// A port, and its address.
    fn bind<'a, R: Net + Clock + RandomSource + Sync>(
        dialer: &mut UdpDialer<'a, R>,
    ) -> io::Result<(UdpPort<'a, R, UdpSocket>, SocketAddr)> {
        let Ok(door) = dialer.bind(HOST, 0) else {
            return Err(io::Error::from(ErrorKind::AddrInUse));
        };
        let at = door.socket.local_addr()?;
        Ok((door, at))
    }

    /// What comes to a port: how many octets, from whom, and the first of them.
    fn came<P: Port>(door: &mut P, wait_ms: u32) -> Option<(usize, u32, u8)> {
        let mut into = [0; LONGEST];
        match door.take(&mut into, wait_ms) {
            Ok(PortPolled::Got { len, from }) => Some((len, from, into[0])),
            _ => None,
        }
    }

    /// What comes to a link: how many octets, and the first of them.
    fn came_back<L: Link>(line: &mut L, wait_ms: u32) -> Option<(usize, u8)> {
        let mut into = [0; LONGEST];
        match line.poll(&mut into, wait_ms) {
            Ok(Polled::Got(len)) => Some((len, into[0])),
            _ => None,
        }
    }

    #[test]
    fn datagrams_go_there_and_back(rt: HostRuntime) -> Result<(), Fail> {
        let mut dialer = UdpDialer::new(&rt, rt.alloc());
        let (mut door, at) = bind(&mut dialer)?;
        let mut line = dialer.dial(HOST, at.port()).ok().ok_or("no link")?;
        assert!(rt; at.ip() == IpAddr::V4(Ipv4Addr::LOCALHOST));
        assert!(rt; came(&mut door, 0).is_none());
        for (len, got) in [(1, 1), (512, 512), (513, 512), (1400, 512)] {
            assert!(rt; line.send(&[7; 1400][..len]).is_ok());
            assert_eq!(rt; came(&mut door, LONG), Some((got, 0, 7)));
        }
        assert!(rt; line.send(&[]).is_ok());
        assert_eq!(rt; came(&mut door, LONG), Some((0, 0, 0)));
        assert!(rt; door.give(0, b"back").is_ok());
        assert_eq!(rt; came_back(&mut line, 1000), Some((4, b'b')));
        Ok(())
    }

    #[test]
    fn a_new_endpoint_is_a_new_client(rt: HostRuntime) -> Result<(), Fail> {
        let mut dialer = UdpDialer::new(&rt, rt.alloc());
        let (mut door, at) = bind(&mut dialer)?;
        let mut line = dialer.dial(HOST, at.port()).ok().ok_or("no link")?;
        for client in 0..3 {
            for _ in 0..2 {
                assert!(rt; line.send(b"asks").is_ok());
                assert_eq!(rt; came(&mut door, LONG), Some((4, client, b'a')));
            }
            assert!(rt; door.give(client, b"told").is_ok());
            assert_eq!(rt; came_back(&mut line, 1000), Some((4, b't')));
            assert!(rt; line.renew().is_ok());
        }
        assert!(rt; door.give(3, b"nobody").is_err());
        assert_eq!(rt; door.faults(), 1);
        // and a port of which a call failed is over
        assert!(rt; door.give(2, b"told").is_err());
        assert!(rt; came(&mut door, 0).is_none());
        assert_eq!(rt; door.faults(), 3);
        Ok(())
    }

    #[test]
    fn a_wait_ends_while_datagrams_come(rt: HostRuntime) -> Result<(), Fail> {
        let mut dialer = UdpDialer::new(&rt, rt.alloc());
        let (mut door, at) = bind(&mut dialer)?;
        let (mut other, _) = bind(&mut dialer)?;
        let mut line = dialer.dial(HOST, at.port()).ok().ok_or("no link")?;
        for _ in 0..3 {
            assert!(rt; line.send(b"asks").is_ok());
        }
        assert_eq!(rt; came(&mut door, 50), Some((4, 0, b'a')));
        // nothing comes to the other one: so long it waits
        assert!(rt; came(&mut other, 60).is_none());
        assert!(rt; came(&mut door, 50).is_none());
        for _ in 0..2 {
            assert_eq!(rt; came(&mut door, LONG), Some((4, 0, b'a')));
        }
        Ok(())
    }
}
