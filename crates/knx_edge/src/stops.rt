//! A runtime with a clock that can be stopped, for tests.

use std::cell::Cell;
use std::io::{self, ErrorKind};
use std::net::{Net, SocketAddr, UdpSocket};
use std::time::{Clock, Duration};

/// A runtime whose clock can't be read once it has stopped.
#[derive(Drop)]
pub struct Stops<'a, R> {
    rt: &'a R,
    stopped: Cell<bool>,
}

impl<'a, R> Stops<'a, R> {
    pub fn new(rt: &'a R) -> Self {
        Stops {
            rt,
            stopped: Cell::new(false),
        }
    }

    pub fn stop(&self) {
        self.stopped.set(true);
    }
}

impl<R: Clock> Clock for Stops<'_, R> {
    fn monotonic(&self) -> io::Result<Duration> {
        if self.stopped.get() {
            return Err(io::Error::from(ErrorKind::Unsupported));
        }
        self.rt.monotonic()
    }

    fn since_1970(&self) -> io::Result<Duration> {
        self.rt.since_1970()
    }
}

impl<R: Net> Net for Stops<'_, R> {
    type Stream = R::Stream;

    type Listener = R::Listener;

    fn bind(&self, at: SocketAddr) -> io::Result<R::Listener> {
        self.rt.bind(at)
    }

    fn connect(&self, to: SocketAddr) -> io::Result<R::Stream> {
        self.rt.connect(to)
    }

    fn bind_udp(&self, at: SocketAddr) -> io::Result<UdpSocket> {
        self.rt.bind_udp(at)
    }
}
