//! What goes on between units, gateway and client, each at its place.

ghost use Rattle.std.specs.Prelude.{◌≡◌, ◌+◌, ◌≤◌, true, false, None, IfNone, IfOk, IfSome, OnErr};
ghost use Rattle.knx_model.specs.Connection.{last_time};
ghost use Rattle.line_model.specs.Deliveries.{next_up};
ghost use Rattle.address_world.specs.AddressWorld.{Pass};
ghost use Rattle.address_law.specs.Calm.{AllSent};
ghost use Rattle.address_sim.specs.Turns.{Gets, GoesUnseen, Happens, HasRoom, IsCalm, IsQuiet, IsRight, NothingComes, NothingDue, Spends, Stays, now, world};

use crate::frames::response;
use crate::happened::Happened;
use crate::losses::loses_answer;
use crate::run::Run;
use knx_model::{Datagram, NoMemory};
use tunnel_sim::{AtGateway, Due};

impl Run {
    /// The first unit that has a response to send sends it. Tells whether there was one. At `Err` nothing has happened.
    pub fn respond(&mut self) -> Result<bool, NoMemory>
        ensures did { IfOk result (λ did. did ≡ true → GoesUnseen self.old self.new) }
        ensures none { IfOk result (λ did. did ≡ false → Stays self.old self.new × AllSent (world self.old).units) }
        ensures err { OnErr result (Stays self.old self.new) }
    {
        let Some((place, address)) = self.units.next_sender() else {
            return Ok(false);
        };
        self.events.reserve(1)?;
        self.tunnel.gateway.waiting.reserve(1)?;
        let n = self.units.next_number(place);
        let lost = loses_answer(self.begun.losses.as_slice(), place, n);
        let at = heard_if(!lost);
        self.units.send(place, n);
        self.tunnel.hear(at, response(address));
        self.events.push(&Happened::Respond(place as u64, at));
        Ok(true)
    }

    /// The client gets the gateway's next datagram, if one is under way to it.
    pub fn down(&mut self) -> Option<Datagram>
        requires { HasRoom 1 self.old }
        ensures got { IfSome result (λ octets. Gets octets self.old self.new) }
        ensures none { IfNone result (Stays self.old self.new × NothingComes (world self.old)) }
        ensures room { Spends 1 self.old self.new }
    {
        let age = self.tunnel.next_down()?;
        let octets = self.tunnel.down(age);
        self.entries += 1;
        self.events.push(&Happened::Down(age as u64));
        Some(octets)
    }

    /// The gateway takes the client's next datagram. Tells whether there was one. At `Err` nothing has happened.
    pub fn up(&mut self) -> Result<bool, NoMemory>
        ensures did { IfOk result (λ did. did ≡ true → GoesUnseen self.old self.new) }
        ensures none { IfOk result (λ did. did ≡ false → Stays self.old self.new × (next_up (world self.old).tunnel ≡ None)) }
        ensures err { OnErr result (Stays self.old self.new) }
    {
        let Some(age) = self.tunnel.next_up() else {
            return Ok(false);
        };
        self.events.reserve(1)?;
        self.tunnel.up(age)?;
        self.events.push(&Happened::Up(age as u64));
        Ok(true)
    }

    /// What the gateway has due, it does. Tells whether there was something.
    pub fn expire(&mut self) -> bool
        requires { HasRoom 1 self.old }
        ensures did { result ≡ true → GoesUnseen self.old self.new }
        ensures none { result ≡ false → Stays self.old self.new }
        ensures after { NothingDue (world self.new) }
        ensures quiet { IsQuiet (world self.old) → IsQuiet (world self.new) }
        ensures room { Spends 1 self.old self.new }
    {
        match self.tunnel.expire() {
            Due::Nothing => false,
            Due::Repeat => {
                self.events.push(&Happened::GwRepeat);
                true
            }
            Due::Closed => {
                self.events.push(&Happened::GwClose);
                true
            }
        }
    }

    /// How long it stays so where nothing but time can go on: so many milliseconds at most, and at least one of them.
    pub fn still_for(&self, most: u32) -> u32
        ensures few { result ≤ most }
        ensures some { 1 ≤ most → 1 ≤ result }
        ensures right { IsCalm (world self.now) → IsRight self.now (Pass result) }
    {
        self.tunnel.still_for(most)
    }

    /// So many milliseconds pass.
    pub fn pass(&mut self, ms: u32)
        requires room { HasRoom 1 self.old }
        requires time { now self.old + ms ≤ last_time }
        requires right { IsRight self.old (Pass ms) }
        ensures happens { Happens self.old (Pass ms) self.new }
        ensures time { now self.new ≡ now self.old + ms }
        ensures quiet { IsQuiet (world self.old) → IsQuiet (world self.new) }
        ensures room { Spends 1 self.old self.new }
    {
        let _ = self.tunnel.pass(u64::from(ms));
        self.entries += 1;
        self.events.push(&Happened::Pass(ms));
    }
}

fn heard_if(comes: bool) -> AtGateway
    ensures comes { comes ≡ true → result ≡ AtGateway.Comes }
    ensures lost { comes ≡ false → result ≡ AtGateway.IsLost }
{
    if comes {
        AtGateway::Comes
    } else {
        AtGateway::IsLost
    }
}
