//! One turn of the line.

ghost use Rattle.std.specs.Prelude.{◌≡◌, ℕ, ◌+◌, ◌≤◌, OnOk, OnErr, IfOk};
ghost use Rattle.knx_model.specs.Connection.{last_time};
ghost use Rattle.line_model.specs.World.{now};
ghost use Rattle.bus_sim.specs.Owing.{meant};
ghost use Rattle.bus_sim.specs.RunNow.{Calls, seen};
ghost use Rattle.bus_sim.specs.Turns.{Turns};
ghost use Rattle.bus_sim.specs.Went.{Stays, world};

use crate::owed::Owed;
use crate::run::Run;
use knx_model::NoMemory;
use tunnel_sim::Letter;

/// What a turn of the line was.
#[derive(Drop)]
pub enum Turn {
    /// A client got this datagram.
    Got(Letter),
    /// Something else happened, at once: one event, or a torn write and the return of power.
    Went,
    /// So many milliseconds passed, at least one, until something was due.
    Passed(u32),
    /// The rest of the wait passed, and nothing is due at its end.
    Quiet,
}

impl Run {
    /// One turn of the line, while so much of a wait is left. What the script calls for goes first; then a datagram to the client, one to the
    /// gateway, a frame that waits for the bus, what the gateway has due, and the device with the least address that has something to send.
    /// Where there is none of these, time passes, until something is due or the wait is over. What is due just when the wait is over is left for a
    /// turn without one. At `Err` nothing has happened.
    pub fn turn(&mut self, left: u32) -> Result<Turn, NoMemory>
        requires { now (world self.old) + left ≤ last_time }
        ensures turns { IfOk result (λ turn. Turns turn left self.old self.new) }
        ensures err { OnErr result (Stays self.old self.new) }
    {
        match self.called() {
            Some(owed) => self.meet(owed),
            None => self.go_on(left),
        }
    }

    /// What the script calls for happens.
    fn meet(&mut self, owed: Owed) -> Result<Turn, NoMemory>
        requires { Calls (seen self.old) (meant owed) }
        ensures turns { IfOk result (λ turn. (left : ℕ) → Turns turn left self.old self.new) }
        ensures err { OnErr result (Stays self.old self.new) }
    {
        match owed {
            Owed::DeliverAgain(number) => {
                self.deliver_again(number)?;
                Ok(Turn::Went)
            }
            Owed::ReachAgain(number) => Ok(Turn::Got(self.reach_again(number)?)),
            Owed::BringAgain(device) => {
                self.frame_again(device)?;
                Ok(Turn::Went)
            }
            Owed::ConnectionCloses(device) => {
                self.connection_closes(device)?;
                Ok(Turn::Went)
            }
            Owed::ChannelCloses => {
                self.channel_closes()?;
                Ok(Turn::Went)
            }
        }
    }
}
