//! A poll: the line goes on until the client gets a datagram or the wait is over.

ghost use Rattle.std.specs.Prelude.{◌≡◌, ◌+◌, ◌≤◌, ◌<◌, ◌⊎◌, ◌^◌, ◌-◌, IfErr, IfOk, OnOk, OnErr, length, take};
ghost use Rattle.knx_model.specs.Connection.{last_time};
ghost use Rattle.line_model.specs.World.{now};
ghost use Rattle.bus_sim.specs.Ended.{StopsFor};
ghost use Rattle.bus_sim.specs.Polls.{EndedSo, GotWithin, PolledSo, StopsWithin};
ghost use Rattle.bus_sim.specs.RunNow.{seen};
ghost use Rattle.bus_sim.specs.Went.{world};
ghost use Rattle.bus_sim.specs.declared.clients.Clients.TheVariants.{One};

use crate::run::Run;
use crate::stopped::Stopped;
use crate::turn::Turn;
use knx_model::{Datagram, NoMemory};
use line_model::Polled;

impl Run {
    /// The line goes on until the client gets a datagram, which stands in the buffer then, or so many milliseconds have passed. Where the last
    /// time comes before, it goes on until then.
    pub fn poll(&mut self, into: &mut [u8; 512], wait_ms: u32) -> Result<Polled, Stopped>
        ensures polled { IfOk result (λ polled. PolledSo polled into.new wait_ms self.old self.new) }
        ensures one { OnOk result (self.old.begun.clients ≡ One) }
        ensures err { OnErr result (StopsWithin wait_ms self.old self.new) }
        ensures cause { IfErr result (λ why. StopsFor why (seen self.new)) }
        ensures begun { self.new.begun ≡ self.old.begun }
    {
        self.drives()?;
        let left = self.before_end(wait_ms);
        if left < wait_ms {
            let octets = self.run_to_end(left)?;
            return Ok(Polled::Got(fill(into, &octets)));
        }
        match self.run_for(wait_ms)? {
            Some(octets) => Ok(Polled::Got(fill(into, &octets))),
            None => Ok(Polled::Quiet),
        }
    }

    /// The time of the line.
    pub fn now(&self) -> u64
        ensures value { result ≡ now (world self.now) }
        ensures fits { result ≤ 2 ^ 64 - 1 }
    {
        self.line.now()
    }

    /// So much of a wait is over before the last time.
    pub fn before_end(&self, wait: u32) -> u32
        ensures few { result ≤ wait }
        ensures fits { now (world self.now) + result ≤ last_time }
        ensures end { (result ≡ wait) ⊎ (now (world self.now) + result ≡ last_time) }
    {
        shorter(wait, u64::MAX - self.now())
    }

    /// What the client gets until the last time, so many milliseconds from now. What would be due at that time isn't done any more.
    fn run_to_end(&mut self, wait: u32) -> Result<Datagram, Stopped>
        requires one { self.old.begun.clients ≡ One }
        requires end { now (world self.old) + wait ≡ last_time }
        ensures got { IfOk result (λ octets. GotWithin wait octets self.old self.new) }
        ensures err { OnErr result (StopsWithin wait self.old self.new) }
        ensures cause { IfErr result (λ why. StopsFor why (seen self.new)) }
        ensures begun { self.new.begun ≡ self.old.begun }
    {
        let mut left = wait;
        while left > 0 {
            self.few();
            match self.turn(left)? {
                Turn::Got(letter) => return Ok(letter.octets),
                Turn::Went => {}
                Turn::Passed(ms) => left -= ms,
                Turn::Quiet => left = 0,
            }
        }
        Err(Stopped::AtEnd)
    }

    /// What the client gets within so many milliseconds; None where it gets nothing, they have passed and nothing is due.
    fn run_for(&mut self, wait: u32) -> Result<Option<Datagram>, NoMemory>
        requires one { self.old.begun.clients ≡ One }
        requires time { now (world self.old) + wait ≤ last_time }
        ensures ended { IfOk result (λ got. EndedSo got wait self.old self.new) }
        ensures err { OnErr result (StopsWithin wait self.old self.new) }
        ensures begun { self.new.begun ≡ self.old.begun }
    {
        let mut left = wait;
        loop {
            self.few();
            match self.turn(left)? {
                Turn::Got(letter) => return Ok(Some(letter.octets)),
                Turn::Went => {}
                Turn::Passed(ms) => left -= ms,
                Turn::Quiet => return Ok(None),
            }
        }
    }

    /// How many events there can be. It does nothing.
    pub fn few(&self)
        ensures { length self.now.events < 2 ^ 63 }
    {
        // The proof knows the type's invariant once a field is read.
        let _ = &self.events;
    }

    /// How late it can be. It does nothing.
    pub fn in_time(&self)
        ensures { now (world self.now) ≤ last_time }
    {
        // The time is a `u64`: so it isn't later than the last one.
        let _ = self.now();
    }
}

/// The shorter of a wait and of what is left.
fn shorter(wait: u32, left: u64) -> u32
    ensures few { result ≤ wait }
    ensures within { result ≤ left }
    ensures all { (result ≡ wait) ⊎ (result ≡ left) }
{
    if left < u64::from(wait) {
        left as u32
    } else {
        wait
    }
}

/// Puts a datagram at the beginning of a buffer; how many octets it has.
fn fill(into: &mut [u8; 512], octets: &Datagram) -> usize
    ensures few { result ≤ 300 }
    ensures octets { take result into.new ≡ octets.now }
{
    let from = octets.as_slice();
    into[..from.len()].copy_from_slice(from);
    from.len()
}
