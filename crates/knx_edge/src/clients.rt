//! The clients of a port, each by a number: the first is 0, and each new one has the next number. A number names its client for ever.

ghost use Rattle.std.specs.Prelude.{◌≡◌, ◌≤◌, ◌⊎◌, ◌++◌, ◌∷◌, [], Contains, IfOk, IsOk, Some, length, slice_get};
ghost use Rattle.knx_edge.specs.Datagrams.{NamesOn};

use indexmap::IndexSet;
use std::alloc::Global;
use std::hash::RandomState;
use std::io::{self, ErrorKind};
use std::marker::Model;
use std::net::SocketAddr;
use std::random::RandomSource;

/// The addresses of the clients that a port knows, in the order of their numbers. A sender chooses its address: so they are hashed with a key of chance.
#[derive(Drop)]
pub struct Clients {
    addresses: IndexSet<SocketAddr, RandomState>,
}

impl Model for Clients {
    ghost use Rattle.std.specs.Prelude.{List};
    ghost use Rattle.std.specs.declared.net.socket_addr.SocketAddr.{SocketAddr as Address};

    ghost Value = { List Address };

    ghost view = { λ c. c.addresses.keys };
}

/// The number of a place; clients have no further ones.
fn number_of(at: usize) -> io::Result<u32>
    ensures number { IfOk result (λ number. number ≡ at) }
    ensures few { at ≤ 4294967295 → IsOk result }
{
    match u32::try_from(at) {
        Ok(number) => Ok(number),
        Err(_) => Err(io::Error::from(ErrorKind::FileTooLarge)),
    }
}

impl Clients {
    /// No clients. It takes no memory.
    pub fn none<R: RandomSource>(rt: &R, alloc: Global) -> io::Result<Clients>
        ensures { IfOk result (λ clients. clients ≡ []) }
    {
        Ok(Clients {
            addresses: IndexSet::with_hasher(alloc, RandomState::new(rt)?),
        })
    }

    /// The address of a client.
    pub fn address(&self, number: u32) -> Option<SocketAddr>
        ensures { result ≡ slice_get self.now number }
    {
        self.addresses.get_index(number as usize).copied()
    }

    /// The number of the client at an address, the next one where it has none yet. It fails where there is no memory or no further number.
    pub fn number(&mut self, address: SocketAddr) -> io::Result<u32>
        ensures named { IfOk result (λ number. slice_get self.new number ≡ Some address) }
        ensures kept { NamesOn self.old self.new }
        ensures known { Contains self.old address → self.new ≡ self.old }
        ensures next { IfOk result (λ number. (self.new ≡ self.old) ⊎ ((number ≡ length self.old) × (self.new ≡ self.old ++ address ∷ []))) }
    {
        let (at, _) = self.addresses.insert_full(address)?;
        number_of(at)
    }
}
