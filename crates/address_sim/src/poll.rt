//! A poll: all goes on until the client gets a datagram or the wait is over.

ghost use Rattle.std.specs.Prelude.{◌≡◌, ◌+◌, ◌*◌, ◌≤◌, IfOk, OnErr, take};
ghost use Rattle.knx_model.specs.Connection.{last_time};

use crate::run::Run;
use knx_model::{Datagram, NoMemory};

/// So many events can there be in a millisecond of a wait: the time passes, the gateway does what it has due, and the client gets that.
const EVENTS_A_MS: usize = 3;

/// Where all that can happen at once has happened.
#[derive(Drop)]
pub enum Settled {
    /// The client got this datagram.
    Got(Datagram),
    /// Nothing but time can go on.
    Quiet,
}

impl Run {
    ghost use Rattle.address_sim.specs.Turns.{EndedSo, HasRoom, IsCalm, SameRecord, SettledSo, now, seen, world};

    /// All goes on until the client gets a datagram, or so many milliseconds have passed. At `Err` the client has got nothing, and no time has passed.
    pub fn poll(&mut self, wait_ms: u32) -> Result<Option<Datagram>, NoMemory>
        requires { now self.old + wait_ms ≤ last_time }
        ensures ended { IfOk result (λ got. EndedSo got wait_ms (seen self.old) (seen self.new)) }
        ensures begun { self.new.begun ≡ self.old.begun }
        ensures err { OnErr result (SameRecord (seen self.old) (seen self.new)) }
    {
        if let Settled::Got(octets) = self.settle()? {
            return Ok(Some(octets));
        }
        self.make_room(EVENTS_A_MS * wait_ms as usize + 1)?;
        Ok(self.wait_out(wait_ms))
    }

    /// Whatever can happen at once happens, until the client gets a datagram or nothing but time can go on.
    fn settle(&mut self) -> Result<Settled, NoMemory>
        ensures settled { IfOk result (λ settled. SettledSo settled (seen self.old) (seen self.new)) }
        ensures begun { self.new.begun ≡ self.old.begun }
        ensures err { OnErr result (SameRecord (seen self.old) (seen self.new)) }
    {
        loop {
            self.make_room(1)?;
            if let Some(octets) = self.down() {
                return Ok(Settled::Got(octets));
            }
            let responded = self.respond()?;
            if responded {
                continue;
            }
            let taken = self.up()?;
            if taken {
                continue;
            }
            let carried = self.carry()?;
            if carried {
                continue;
            }
            self.make_room(1)?;
            let acted = self.expire();
            if !acted {
                return Ok(Settled::Quiet);
            }
        }
    }

    /// The wait passes, until the gateway sends the client something.
    fn wait_out(&mut self, wait_ms: u32) -> Option<Datagram>
        requires calm { IsCalm (world self.old) }
        requires room { HasRoom (3 * wait_ms + 1) self.old }
        requires time { now self.old + wait_ms ≤ last_time }
        ensures ended { EndedSo result wait_ms (seen self.old) (seen self.new) }
        ensures begun { self.new.begun ≡ self.old.begun }
    {
        let mut left = wait_ms;
        loop {
            let ms = self.still_for(left);
            self.pass(ms);
            left -= ms;
            if left == 0 {
                return None;
            }
            let _ = self.expire();
            if let Some(octets) = self.down() {
                return Some(octets);
            }
        }
    }
}

/// Puts a datagram at the beginning of a buffer; how many octets it has.
pub fn fill(into: &mut [u8; 512], octets: &Datagram) -> usize
    ensures few { result ≤ 300 }
    ensures octets { take result into.new ≡ octets.now }
{
    let from = octets.as_slice();
    into[..from.len()].copy_from_slice(from);
    from.len()
}
