//! Sockets for datagrams (UDP). They aren't connected: each datagram has its own address.

ghost use Rattle.std.specs.IoError.{error_kind};
ghost use Rattle.std.specs.Prelude.{◌≡◌, ◌≤◌, ◌↔◌, IfOk, IfSome, IsTrue, None, OnErr, OnOk, false, length, take, true};
ghost use Rattle.std.specs.Net.Socket.{socket_ip};
ghost use Rattle.knx_edge.specs.declared.socket.Senders.TheVariants.{Host};
ghost use Rattle.knx_edge.specs.Datagrams.{Brings, BringsOf, Gives, IsAt, IsOf, IsUnused, is_wait_over};

use std::io::{self, ErrorKind};
use std::net::{IpAddr, Ipv4Addr, Net, SocketAddr, UdpSocket};
use std::time::{Clock, Duration, Instant};

/// The greatest number of octets of a datagram that is received; longer ones are cut off there.
pub const LONGEST: usize = 512;

/// Whose datagrams are taken.
#[derive(Clone, Copy, Drop)]
pub enum Senders {
    /// Of this host alone, from whichever of its ports.
    Host(IpAddr),
    /// Of everybody who can be answered, which nobody at port 0 can.
    Answerable,
}

impl Senders {
    /// Whether a datagram from there is taken.
    fn has(self, from: SocketAddr) -> bool
        ensures { IsTrue result ↔ IsOf self from }
    {
        match self {
            Senders::Host(host) => from.ip() == host,
            Senders::Answerable => from.port() != 0,
        }
    }

    /// Those at the host of an address.
    pub fn at(address: SocketAddr) -> Senders
        ensures { result ≡ Host (socket_ip address) }
    {
        Senders::Host(address.ip())
    }
}

/// A socket for datagrams.
pub trait Datagrams: Drop {
    ghost use Rattle.std.specs.Prelude.{List, Option};
    ghost use Rattle.knx_edge.specs.Datagrams.{Datagram};

    /// The datagrams that it was given, the newest first, where it tells them.
    ghost sent: { Self → Option (List Datagram) };

    /// The datagrams that come to it, in order, where it tells them.
    ghost coming: { Self → Option (List Datagram) };

    /// A new socket at an address.
    fn bound<R: Net>(rt: &R, at: SocketAddr) -> io::Result<Self>
    where
        Self: Sized,
        ensures { IfOk result (λ s. IsUnused (sent s)) };

    /// Gives it a datagram, of which it takes a front.
    fn put(&mut self, octets: &[u8], to: SocketAddr) -> io::Result<usize>
        ensures within { IfOk result (λ count. count ≤ length octets.now) }
        ensures given { IfOk result (λ count. Gives (record { octets = take count octets.now; peer = to }) (sent self.old) (sent self.new)) };

    /// Waits for a datagram, and answers how many octets it has and who sent it; none where the wait ended. A wait of 0 only looks.
    fn receive(
        &mut self,
        into: &mut [u8; LONGEST],
        wait_ms: u32,
    ) -> io::Result<Option<(usize, SocketAddr)>>
        ensures within { IfOk result (λ got. IfSome got (λ came. came.0 ≤ 512)) }
        ensures brings { IfOk result (λ got. Brings got into.new (coming self.old) (coming self.new)) };
}

/// A wait that its time or a signal ended is no failure.
fn unless_over(error: io::Error) -> io::Result<Option<(usize, SocketAddr)>>
    ensures none { IfOk result (λ got. got ≡ None) }
    ensures over { OnOk result (is_wait_over (error_kind error) ≡ true) }
    ensures failed { OnErr result (is_wait_over (error_kind error) ≡ false) }
{
    match error.kind() {
        ErrorKind::WouldBlock | ErrorKind::TimedOut | ErrorKind::Interrupted => Ok(None),
        _ => Err(error),
    }
}

impl Datagrams for UdpSocket {
    ghost sent = { λ s. None };

    ghost coming = { λ s. None };

    fn bound<R: Net>(rt: &R, at: SocketAddr) -> io::Result<UdpSocket> {
        UdpSocket::bind(rt, at)
    }

    fn put(&mut self, octets: &[u8], to: SocketAddr) -> io::Result<usize> {
        self.send_to(octets, to)
    }

    fn receive(
        &mut self,
        into: &mut [u8; LONGEST],
        wait_ms: u32,
    ) -> io::Result<Option<(usize, SocketAddr)>> {
        self.set_nonblocking(wait_ms == 0)?;
        if wait_ms > 0 {
            self.set_read_timeout(Some(Duration::from_millis(u64::from(wait_ms))))?;
        }
        match self.recv_from(into) {
            Ok(came) => Ok(Some(came)),
            Err(error) => unless_over(error),
        }
    }
}

/// What is left of a wait after so long; none where it is over.
pub fn left_of(wait_ms: u32, passed: Duration) -> Option<u32>
    ensures { IfSome result (λ left. left ≤ wait_ms) }
{
    match u32::try_from(passed.as_millis()) {
        Ok(passed) => wait_ms.checked_sub(passed),
        Err(_) => None,
    }
}

/// Waits for a datagram of these senders; those of others are passed over, within the same wait.
pub fn receive_of<R: Clock, S: Datagrams>(
    rt: &R,
    socket: &mut S,
    senders: Senders,
    into: &mut [u8; LONGEST],
    wait_ms: u32,
) -> io::Result<Option<(usize, SocketAddr)>>
    ensures within { IfOk result (λ got. IfSome got (λ came. came.0 ≤ 512)) }
    ensures brings { IfOk result (λ got. BringsOf senders got into.new (S.coming socket.old) (S.coming socket.new)) }
{
    let begun = Instant::now(rt)?;
    let mut left = wait_ms;
    // no wait is so long; that a `loop` ends would have to be proved of the clock
    for _ in 0..u64::MAX {
        match socket.receive(into, left)? {
            Some((count, from)) if senders.has(from) => return Ok(Some((count, from))),
            Some(_) => {}
            None => return Ok(None),
        }
        match left_of(wait_ms, begun.elapsed(rt)?) {
            Some(rest) => left = rest,
            None => return Ok(None),
        }
    }
    Ok(None)
}

/// Sends a datagram whole.
pub fn send_whole<S: Datagrams>(socket: &mut S, octets: &[u8], to: SocketAddr) -> io::Result<()>
    ensures { OnOk result (Gives (record { octets = octets.now; peer = to }) (S.sent socket.old) (S.sent socket.new)) }
{
    match socket.put(octets, to) {
        Ok(count) if count == octets.len() => Ok(()),
        Ok(_) => Err(io::Error::from(ErrorKind::WriteZero)),
        Err(error) => Err(error),
    }
}

/// The address of an IPv4 host and a port number.
pub fn address_of(host: [u8; 4], port: u16) -> SocketAddr
    ensures { IsAt host port result }
{
    SocketAddr::new(IpAddr::V4(Ipv4Addr::from(host)), port)
}
