//! The client's frames go over the bus.

ghost use Rattle.std.specs.Prelude.{◌≡◌, [], Some, true, false, IfOk, OnErr, OnOk};
ghost use Rattle.address_world.specs.AddressWorld.{next_frame};
ghost use Rattle.address_law.specs.Calm.{AllSent};
ghost use Rattle.address_sim.specs.Told.{is_broadcast};
ghost use Rattle.address_sim.specs.Turns.{GoesUnseen, Stays, world};

use crate::frames::{broadcast, is_broadcast};
use crate::happened::Happened;
use crate::run::Run;
use knx_model::{Ldata, NoMemory};
use tunnel_sim::confirmation;

impl Run {
    /// The client's next frame goes over the bus. Tells whether there was one. No unit has a response that isn't sent. At `Err` nothing has happened.
    pub fn carry(&mut self) -> Result<bool, NoMemory>
        requires { AllSent (world self.old).units }
        ensures did { IfOk result (λ did. did ≡ true → GoesUnseen self.old self.new) }
        ensures none { IfOk result (λ did. did ≡ false → Stays self.old self.new × ((world self.old).tunnel.gateway.bus ≡ [])) }
        ensures err { OnErr result (Stays self.old self.new) }
    {
        let Some(frame) = self.tunnel.gateway.frame_due() else {
            return Ok(false);
        };
        if is_broadcast(&frame) {
            self.carry_to_all(frame)?;
        } else {
            self.carry_single(frame)?;
        }
        Ok(true)
    }

    /// A broadcast: all units get it, but those for which it is lost.
    fn carry_to_all(&mut self, frame: Ldata) -> Result<(), NoMemory>
        requires sent { AllSent (world self.old).units }
        requires next { next_frame (world self.old) ≡ Some frame }
        requires broadcast { is_broadcast frame ≡ true }
        ensures goes { OnOk result (GoesUnseen self.old self.new) }
        ensures err { OnErr result (Stays self.old self.new) }
    {
        self.events.reserve(1)?;
        self.tunnel.gateway.waiting.reserve(1)?;
        let n = self.broadcasts + 1;
        let losses = self.begun.losses.as_slice();
        self.units.get_all(&broadcast(&frame), losses, n);
        self.events.push(&Happened::Broadcast(losses, n));
        self.broadcasts = n;
        self.tunnel.carried(confirmation(frame, true));
        Ok(())
    }

    /// A frame to a group, or to an address: then it is confirmed where a unit has that.
    fn carry_single(&mut self, frame: Ldata) -> Result<(), NoMemory>
        requires next { next_frame (world self.old) ≡ Some frame }
        requires single { is_broadcast frame ≡ false }
        ensures goes { OnOk result (GoesUnseen self.old self.new) }
        ensures err { OnErr result (Stays self.old self.new) }
    {
        self.events.reserve(1)?;
        self.tunnel.gateway.waiting.reserve(1)?;
        let is_confirmed = self.units.confirms(&frame);
        self.events.push(&Happened::Single);
        self.tunnel.carried(confirmation(frame, is_confirmed));
        Ok(())
    }
}
