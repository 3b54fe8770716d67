//! The load machine of one loadable object.
//!
//! ```text
//!              start                completed
//!   Unloaded ---------> Loading <-------------> Loaded
//!                        |   ^       start       |   ^
//!                        +---+                   +---+
//!              start, allocation               completed
//!              within the capacity
//!
//!   in each state: no operation changes nothing, and unload leads to Unloaded
//!   any event that has no place here leads to Error, which only unload leaves: completed in Unloaded, an allocation outside Loading or
//!   over the capacity, and an undefined event
//! ```

ghost use Rattle.std.specs.Prelude.{◌≡◌, ◌&&◌, ℕ, nat_le};
ghost use Rattle.knx_model.specs.Loading.{Loadable, machine_of, capacity_of, load_step, is_loading, is_loaded, started, completed};

use knx_model::{LoadEvent, LoadState};
use std::marker::Model;

/// The load state of a loadable object, and the length of its segment in octets.
#[derive(Drop)]
pub struct LoadMachine {
    state: LoadState,
    len: u16,
}

impl Model for LoadMachine {
    ghost use Rattle.knx_model.specs.Loading.{Machine};

    ghost Value = { Machine };

    ghost view = { λ m. record { state = m.state; len = m.len } };
}

impl LoadMachine {
    /// Nothing was loaded.
    pub fn unloaded() -> LoadMachine
        ensures { result ≡ record { state = LoadState.Unloaded; len = 0 } }
    {
        LoadMachine {
            state: LoadState::Unloaded,
            len: 0,
        }
    }

    /// A segment of this length is loaded.
    pub fn loaded(len: u16) -> LoadMachine
        ensures { result ≡ record { state = LoadState.Loaded; len = len } }
    {
        LoadMachine {
            state: LoadState::Loaded,
            len,
        }
    }

    /// The load state.
    pub fn state(&self) -> LoadState
        ensures { result ≡ self.now.state }
    {
        self.state
    }

    /// The length of the segment, in octets.
    pub fn len(&self) -> u16
        ensures { result ≡ self.now.len }
    {
        self.len
    }

    /// Whether the state is Loading.
    pub fn is_loading(&self) -> bool
        ensures { result ≡ is_loading self.now.state }
    {
        matches!(self.state, LoadState::Loading)
    }

    /// Whether the state is Loaded.
    pub fn is_loaded(&self) -> bool
        ensures { result ≡ is_loaded self.now.state }
    {
        matches!(self.state, LoadState::Loaded)
    }

    /// Whether an allocation of so many octets is taken, by an object of this capacity.
    pub fn allocates(&self, size: u32, capacity: u16) -> bool
        ensures { result ≡ is_loading self.now.state && nat_le size capacity }
    {
        self.is_loading() && size <= capacity as u32
    }

    /// Takes a load event, as an object of this capacity.
    pub fn load(&mut self, event: LoadEvent, capacity: u16)
        ensures { (p : Loadable) → machine_of p ≡ self.old → capacity_of p ≡ capacity → self.new ≡ machine_of (load_step p event) }
    {
        match event {
            LoadEvent::NoOperation => {}
            LoadEvent::StartLoading => self.state = started(self.state),
            LoadEvent::LoadCompleted => self.state = completed(self.state),
            LoadEvent::Allocate { size, fill: _ } => self.allocate(size, capacity),
            LoadEvent::Unload => *self = LoadMachine::unloaded(),
            LoadEvent::Undefined => self.state = LoadState::Error,
        }
    }

    fn allocate(&mut self, size: u32, capacity: u16)
        ensures { (p : Loadable) (fill : ℕ) → machine_of p ≡ self.old → capacity_of p ≡ capacity → self.new ≡ machine_of (load_step p (LoadEvent.Allocate size fill)) }
    {
        if self.allocates(size, capacity) {
            self.len = size as u16;
        } else {
            self.state = LoadState::Error;
        }
    }
}

fn started(state: LoadState) -> LoadState
    ensures { result ≡ started state }
{
    match state {
        LoadState::Error => LoadState::Error,
        _ => LoadState::Loading,
    }
}

fn completed(state: LoadState) -> LoadState
    ensures { result ≡ completed state }
{
    match state {
        LoadState::Loaded | LoadState::Loading => LoadState::Loaded,
        _ => LoadState::Error,
    }
}
