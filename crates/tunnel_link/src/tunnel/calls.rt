//! What is done on the link.

ghost use Rattle.std.specs.Prelude.{◌≡◌, ◌≤◌, IfErr, OnOk, Some, None};
ghost use Rattle.line_model.specs.ClientEnd.{IsCemi};
ghost use Rattle.line_model.specs.LinkStory.{IsTime, clock_of};
ghost use Rattle.tunnel_link.specs.Alone.{Each, EndsNone, LeavesAlone, SendsOnce};
ghost use Rattle.tunnel_link.specs.Goes.{GoesOn, AfterFault};
ghost use Rattle.tunnel_link.specs.Rights.{IsOfTunnel, after_result};
ghost use Rattle.tunnel_link.specs.Adds.{Growing, place_of, Seeks, PutsOne, Leaves, Dues, Acts, PollAdds, AllPrompt, HasActed, Ready};
ghost use Rattle.tunnel_link.specs.Kept.{with_due};
ghost use Rattle.tunnel_link.specs.Lasts.{LastsRightly};
ghost use Rattle.tunnel_link.specs.Paces.{BeatsInTime, HasTriesLeft, PollsWithin, TakesNoTime};

use super::Tunnel;
use crate::came::Came;
use crate::sending::{connected, listened, sent};
use knx_model::Datagram;
use line_model::{HubFault, LONGEST_POLL_MS, Link, frames_are_read, until};

impl<L: Link> Tunnel<L> {
    /// Takes a new endpoint and asks for a channel there, where none is open or sought. Tells whether it did.
    pub fn seek(&mut self) -> Result<bool, HubFault>
        ensures grows { GoesOn (L.story self.old.link) (L.story self.new.link) }
        ensures adds { Growing (Seeks result) (L.story self.old.link) (L.story self.new.link) }
        ensures fault { IfErr result (λ fault. self.new.known.fault ≡ Some fault) }
        ensures stands { OnOk result (self.new.known.fault ≡ None) }
        ensures by_tunnel { self.old.known.fault ≡ None → IfErr result IsOfTunnel }
        ensures ended { AfterFault self.old result self.new }
        ensures time { L.clock self.old.link ≤ L.clock self.new.link }
        ensures events { L.place self.old.link ≤ L.place self.new.link }
        ensures script { L.script self.new.link ≡ L.script self.old.link }
        ensures counts { self.old.known.fault ≡ None → L.faults self.new.link ≡ after_result result (L.faults self.old.link) }
        ensures alone { Growing (Each EndsNone) (L.story self.old.link) (L.story self.new.link) }
        ensures timeless { Growing (Each TakesNoTime) (L.story self.old.link) (L.story self.new.link) }
        ensures ready { OnOk result (HasActed self.old.known (L.story self.old.link) → Ready self.new.known (L.story self.new.link)) }
    {
        self.known.standing()?;
        if !self.known.channel.may_connect() {
            return Ok(false);
        }
        connected(&mut self.link, &mut self.known)?;
        Ok(true)
    }

    /// Puts a request with these cEMI octets.
    pub fn put(&mut self, cemi: &Datagram) -> Result<(), HubFault>
        requires { IsCemi cemi.now }
        ensures grows { GoesOn (L.story self.old.link) (L.story self.new.link) }
        ensures adds { Growing (PutsOne result cemi.now (place_of (L.story self.new.link))) (L.story self.old.link) (L.story self.new.link) }
        ensures fault { IfErr result (λ fault. self.new.known.fault ≡ Some fault) }
        ensures stands { OnOk result (self.new.known.fault ≡ None) }
        ensures by_tunnel { self.old.known.fault ≡ None → IfErr result IsOfTunnel }
        ensures ended { AfterFault self.old result self.new }
        ensures time { L.clock self.old.link ≤ L.clock self.new.link }
        ensures events { L.place self.old.link ≤ L.place self.new.link }
        ensures script { L.script self.new.link ≡ L.script self.old.link }
        ensures counts { self.old.known.fault ≡ None → L.faults self.new.link ≡ after_result result (L.faults self.old.link) }
        ensures alone { Growing (Each LeavesAlone) (L.story self.old.link) (L.story self.new.link) }
        ensures timeless { Growing (Each TakesNoTime) (L.story self.old.link) (L.story self.new.link) }
    {
        self.known.standing()?;
        let now = self.link.now();
        match self.known.puts(cemi, now) {
            Some(request) => sent(&mut self.link, &mut self.known, &request),
            None => Ok(()),
        }
    }

    /// Asks to end the channel. Tells whether there was one.
    pub fn leave(&mut self) -> Result<bool, HubFault>
        ensures grows { GoesOn (L.story self.old.link) (L.story self.new.link) }
        ensures adds { Growing (Leaves result) (L.story self.old.link) (L.story self.new.link) }
        ensures fault { IfErr result (λ fault. self.new.known.fault ≡ Some fault) }
        ensures stands { OnOk result (self.new.known.fault ≡ None) }
        ensures by_tunnel { self.old.known.fault ≡ None → IfErr result IsOfTunnel }
        ensures ended { AfterFault self.old result self.new }
        ensures time { L.clock self.old.link ≤ L.clock self.new.link }
        ensures events { L.place self.old.link ≤ L.place self.new.link }
        ensures script { L.script self.new.link ≡ L.script self.old.link }
        ensures counts { self.old.known.fault ≡ None → L.faults self.new.link ≡ after_result result (L.faults self.old.link) }
        ensures alone { Growing SendsOnce (L.story self.old.link) (L.story self.new.link) }
        ensures timeless { Growing (Each TakesNoTime) (L.story self.old.link) (L.story self.new.link) }
    {
        self.known.standing()?;
        match self.known.leaves() {
            Some(request) => {
                sent(&mut self.link, &mut self.known, &request)?;
                Ok(true)
            }
            None => Ok(false),
        }
    }

    /// Sends what is due: the request that isn't acknowledged, once more, or a heartbeat. Tells whether there was something.
    pub fn act(&mut self) -> Result<bool, HubFault>
        ensures grows { GoesOn (L.story self.old.link) (L.story self.new.link) }
        ensures adds { Growing (Acts result) (L.story self.old.link) (L.story self.new.link) }
        ensures fault { IfErr result (λ fault. self.new.known.fault ≡ Some fault) }
        ensures stands { OnOk result (self.new.known.fault ≡ None) }
        ensures by_tunnel { self.old.known.fault ≡ None → IfErr result IsOfTunnel }
        ensures ended { AfterFault self.old result self.new }
        ensures time { L.clock self.old.link ≤ L.clock self.new.link }
        ensures events { L.place self.old.link ≤ L.place self.new.link }
        ensures script { L.script self.new.link ≡ L.script self.old.link }
        ensures counts { self.old.known.fault ≡ None → L.faults self.new.link ≡ after_result result (L.faults self.old.link) }
        ensures alone { Growing (Each LeavesAlone) (L.story self.old.link) (L.story self.new.link) }
        ensures timeless { Growing (Each TakesNoTime) (L.story self.old.link) (L.story self.new.link) }
        ensures acted { OnOk result (HasActed self.new.known (L.story self.new.link)) }
    {
        self.known.standing()?;
        let now = self.link.now();
        let again = self.send_due(now)?;
        let beat = self.send_due(now)?;
        let _link = &self.link;
        Ok(again || beat)
    }

    /// Sends the request that is due again, or else the heartbeat, which takes no time. Tells whether there was one.
    fn send_due(&mut self, now: u64) -> Result<bool, HubFault>
        requires time { IsTime now (L.story self.old.link) }
        requires stands { self.old.known.fault ≡ None }
        ensures adds { Growing (Dues result) (L.story self.old.link) (L.story self.new.link) }
        ensures told { OnOk result (IsTime now (L.story self.new.link)) }
        ensures grows { GoesOn (L.story self.old.link) (L.story self.new.link) }
        ensures fault { IfErr result (λ fault. self.new.known.fault ≡ Some fault) }
        ensures stands { OnOk result (self.new.known.fault ≡ None) }
        ensures by_tunnel { IfErr result IsOfTunnel }
        ensures time { L.clock self.old.link ≤ L.clock self.new.link }
        ensures events { L.place self.old.link ≤ L.place self.new.link }
        ensures script { L.script self.new.link ≡ L.script self.old.link }
        ensures counts { L.faults self.new.link ≡ after_result result (L.faults self.old.link) }
        ensures alone { Growing (Each LeavesAlone) (L.story self.old.link) (L.story self.new.link) }
        ensures timeless { Growing (Each TakesNoTime) (L.story self.old.link) (L.story self.new.link) }
        ensures known { OnOk result (self.new.known ≡ with_due self.old.known now) }
    {
        match self.known.due(now) {
            Some(datagram) => {
                sent(&mut self.link, &mut self.known, &datagram)?;
                Ok(true)
            }
            None => Ok(false),
        }
    }

    /// One poll of at most so many milliseconds, never more than 100, and not past a deadline, also where it fails. A request that was got is acknowledged at
    /// once, and a loss of the channel answered. Where nothing is due when it begins, no deadline is passed over in it; and no heartbeat where none was due,
    /// though a new endpoint was to be taken, nor a third failed try.
    pub fn poll(&mut self, longest_ms: u32) -> Result<Came, HubFault>
        ensures grows { GoesOn (L.story self.old.link) (L.story self.new.link) }
        ensures adds { Growing (PollAdds result) (L.story self.old.link) (L.story self.new.link) }
        ensures fault { IfErr result (λ fault. self.new.known.fault ≡ Some fault) }
        ensures stands { OnOk result (self.new.known.fault ≡ None) }
        ensures by_tunnel { self.old.known.fault ≡ None → IfErr result IsOfTunnel }
        ensures ended { AfterFault self.old result self.new }
        ensures time { L.clock self.old.link ≤ L.clock self.new.link }
        ensures events { L.place self.old.link ≤ L.place self.new.link }
        ensures script { L.script self.new.link ≡ L.script self.old.link }
        ensures counts { self.old.known.fault ≡ None → L.faults self.new.link ≡ after_result result (L.faults self.old.link) }
        ensures alone { Growing (Each LeavesAlone) (L.story self.old.link) (L.story self.new.link) }
        ensures prompt { Ready self.old.known (L.story self.old.link) → Growing AllPrompt (L.story self.old.link) (L.story self.new.link) }
        ensures beats { HasActed self.old.known (L.story self.old.link) → Growing (Each BeatsInTime) (L.story self.old.link) (L.story self.new.link) }
        ensures tries { HasActed self.old.known (L.story self.old.link) → Growing (Each (HasTriesLeft (clock_of (L.story self.old.link)))) (L.story self.old.link) (L.story self.new.link) }
        ensures within { Growing (PollsWithin (clock_of (L.story self.old.link)) longest_ms) (L.story self.old.link) (L.story self.new.link) }
        ensures lasts { HasActed self.old.known (L.story self.old.link) → OnOk result (Growing (LastsRightly (clock_of (L.story self.old.link)) longest_ms) (L.story self.old.link) (L.story self.new.link)) }
    {
        frames_are_read();
        self.known.standing()?;
        let now = self.link.now();
        let wait_ms = until(self.deadline(), now, longest_ms.min(LONGEST_POLL_MS));
        listened(&mut self.link, &mut self.known, wait_ms)
    }
}
