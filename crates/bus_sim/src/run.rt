//! A run of the simulated line.

ghost use Rattle.std.specs.Prelude.{◌≡◌, [], IfOk};
ghost use Rattle.bus_sim.specs.Held.{IsLoaded};
ghost use Rattle.bus_sim.specs.RunNow.{Keeps, seen};

use crate::beginning::Beginning;
use crate::counts::Counts;
use crate::events::Events;
use crate::owed::Owing;
use knx_model::NoMemory;
use line_sim::Line;
use script_index::ScriptIndex;
use std::alloc::Global;
use std::marker::Model;

/// A run: what it began with, and all that happened since; the line as it is now; and, of the script, its index, what was counted and what it
/// calls for.
#[derive(Drop)]
pub struct Run {
    pub(crate) alloc: Global,
    pub(crate) begun: Beginning,
    pub(crate) events: Events,
    pub(crate) index: ScriptIndex,
    pub(crate) line: Line,
    pub(crate) counts: Counts,
    pub(crate) owed: Owing,
}

impl Model for Run {
    ghost use Rattle.bus_sim.specs.RunNow.{RunState};
    ghost use Rattle.bus_sim.specs.Held.{IsHeld};

    ghost Value = { RunState };

    ghost view = { λ r. record { begun = r.begun; events = r.events.list; line = r.line } };

    ghost invariant = { λ r. IsHeld (record { begun = r.begun; events = r.events.list }) r.index r.line r.counts r.owed.list };
}

impl Run {
    /// A run on which nothing has happened.
    pub fn begin(alloc: Global, begun: Beginning) -> Result<Run, NoMemory>
        requires { IsLoaded begun }
        ensures { IfOk result (λ run. seen run ≡ record { begun = begun; events = [] }) }
    {
        let index = ScriptIndex::new(alloc, begun.script.as_slice())?;
        let line = Line::new(alloc, begun.tunnel, begun.begin(alloc, &index)?)?;
        let counts = Counts::new(alloc, begun.tunnel)?;
        Ok(Run {
            alloc,
            begun,
            events: Events::new(alloc),
            index,
            line,
            counts,
            owed: Owing::new(alloc),
        })
    }

    /// What holds of each run, for a caller to know. It does nothing.
    pub fn keeps(&self)
        ensures { Keeps (seen self.now) }
    {
        // The proof knows the type's invariant once a field is read.
        let _ = &self.events;
    }
}
