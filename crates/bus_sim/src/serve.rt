//! The simulated line served to clients at a port.

ghost use Rattle.std.specs.Prelude.{◌≡◌, IfOk, OnErr};
ghost use Rattle.bus_sim.specs.RunNow.{script, start};
ghost use Rattle.bus_sim.specs.Serving.{BreaksOff, CountsServing, ServedSo};

use crate::bus::SimBus;
use crate::driving::take_run;
use line_model::{Port, PortFault};
use std::alloc::Global;

/// How a serving ended.
#[derive(Clone, Copy, Drop)]
pub enum Served {
    /// A channel was made, none is open, and the last ten turns were quiet.
    Ended,
    /// All turns were used before that.
    OpenTurns,
}

impl SimBus {
    /// Serves the line at a port, for so many turns at most. A turn takes a datagram, which comes from the client of that number, or is a quiet wait,
    /// which lets 100 ms pass on the line; what clients get, the port is given. It ends where a channel was made, none is open and the last
    /// ten turns were quiet. A run that was driven as a link begins anew. At `Failed` one call of the port failed, or this line's run has come
    /// to the last time. At each `Err` the line stands where the serving broke off, and a further serving goes on from there.
    pub fn serve<P: Port>(
        &mut self,
        alloc: Global,
        port: &mut P,
        turns: u32,
    ) -> Result<Served, PortFault>
        ensures served { IfOk result (λ served. ServedSo served turns self.old.run self.new.run (P.story port.old) (P.story port.new)) }
        ensures broken { OnErr result (BreaksOff turns self.old.run self.new.run (P.story port.old) (P.story port.new)) }
        ensures counts { CountsServing result (P.faults port.old) (P.faults port.new) self.old.faults self.new.faults self.new.run }
        ensures start { start self.new.run ≡ start self.old.run }
        ensures script { script self.new.run ≡ script self.old.run }
    {
        let mut run = take_run(self.alloc, &mut self.run)?;
        let served = run.serve(alloc, port, turns);
        self.run = Some(run);
        match served {
            Ok(served) => Ok(served),
            Err(broken) => Err(self.port_fault_of(broken)),
        }
    }
}
