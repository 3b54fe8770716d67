//! What the script calls for.

ghost use Rattle.std.specs.Prelude.{◌≡◌, Some, None, OnOk, OnErr, IfOk, option_map, slice_get};
ghost use Rattle.line_model.specs.Network.{OfSent};
ghost use Rattle.line_model.specs.Owed as model;
ghost use Rattle.line_model.specs.World.{Down};
ghost use Rattle.network_sim.specs.Window.{IsDeliverable};
ghost use Rattle.bus_sim.specs.Choices.{delivered};
ghost use Rattle.bus_sim.specs.Owing.{first_of, meant};
ghost use Rattle.bus_sim.specs.RunNow.{Calls, owed_in, seen};
ghost use Rattle.bus_sim.specs.Turns.{Gets, Happens};
ghost use Rattle.bus_sim.specs.Went.{IsRight, Stays};

use crate::owed::Owed;
use crate::reaching::again_down;
use crate::run::Run;
use knx_model::NoMemory;
use tunnel_sim::Letter;

impl Run {
    /// What the script calls for first.
    pub fn called(&self) -> Option<Owed>
        ensures { option_map meant result ≡ first_of (owed_in (seen self.now)) }
    {
        self.owed.first()
    }

    /// The client's datagram of a number comes to the gateway again.
    pub fn deliver_again(&mut self, number: u64) -> Result<(), NoMemory>
        requires { Calls (seen self.old) (model.DeliverAgain number) }
        ensures happens { OnOk result (Happens self.old self.new) }
        ensures err { OnErr result (Stays self.old self.new) }
    {
        let age = self.again_up(number);
        self.deliver_up(age)
    }

    /// Its age.
    fn again_up(&self, number: u64) -> usize
        requires { Calls (seen self.now) (model.DeliverAgain number) }
        ensures deliverable { OfSent IsDeliverable (slice_get self.now.line.tunnel.up.kept result) }
        ensures right { IsRight self.now (delivered self.now result) }
    {
        self.line.again_up(number).unwrap()
    }

    /// The gateway's datagram of a number comes to the client again.
    pub fn reach_again(&mut self, number: u64) -> Result<Letter, NoMemory>
        requires { Calls (seen self.old) (model.ReachAgain number) }
        ensures gets { IfOk result (λ letter. Gets letter self.old self.new) }
        ensures err { OnErr result (Stays self.old self.new) }
    {
        let age = self.again_down(number);
        self.down(age)
    }

    /// Its age.
    fn again_down(&self, number: u64) -> usize
        requires { Calls (seen self.now) (model.ReachAgain number) }
        ensures deliverable { OfSent IsDeliverable (slice_get self.now.line.tunnel.down.kept result) }
        ensures right { IsRight self.now (Down result) }
    {
        again_down(&self.line, self.begun.clients, number).unwrap()
    }

    /// A device takes its last frame again.
    pub fn frame_again(&mut self, device: u16) -> Result<(), NoMemory>
        requires { Calls (seen self.old) (model.BringAgain device) }
        ensures happens { OnOk result (Happens self.old self.new) }
        ensures err { OnErr result (Stays self.old self.new) }
    {
        self.bring_again(device)
    }

    /// The connection of a device closes.
    pub fn connection_closes(&mut self, device: u16) -> Result<(), NoMemory>
        requires { Calls (seen self.old) (model.ConnectionCloses device) }
        ensures happens { OnOk result (Happens self.old self.new) }
        ensures err { OnErr result (Stays self.old self.new) }
    {
        self.keeps();
        self.dev_close(device)
    }

    /// The channel closes.
    pub fn channel_closes(&mut self) -> Result<(), NoMemory>
        requires { Calls (seen self.old) model.ChannelCloses }
        ensures happens { OnOk result (Happens self.old self.new) }
        ensures err { OnErr result (Stays self.old self.new) }
    {
        self.keeps();
        self.gw_close()
    }
}
