//! The workers.

ghost use Rattle.std.specs.Prelude.{◌≡◌, ℕ, ◌+◌, ◌-◌, ◌≤◌, ◌==◌, ◌&&◌, Some, None, false, true, IfOk, IfSome, length, replicate, slice_set};
ghost use Rattle.hub_work.specs.Books.{held_at, is_of_device};
ghost use Rattle.hub_work.specs.Came.{waiting_at, holds_at, RisesWhere, TakesOneIn};
ghost use Rattle.hub_work.specs.Crew.{holdings, after_begun};

use knx_model::{IndAddr, NoMemory};
use std::alloc::Global;
use std::marker::Model;

/// The job that a worker holds.
#[derive(Clone, Copy, Drop)]
pub struct Held {
    pub job: u32,
    pub device: IndAddr,
    /// An attempt of it has sent its T_Connect.
    pub begun: bool,
    /// How much of what came for it waits for the worker's turn: frames of its device, confirmations of its frames, losses of its channel.
    pub came: u32,
}

/// Which job each worker holds; a frame of a device finds its worker by the device part of its address.
#[derive(Drop)]
pub struct Crew {
    held: Vec<Option<Held>>,
    /// Of each device part the worker, from 1, that took a job of such a device last; 0 where none did.
    by_device: [u8; 256],
}

impl Model for Crew {
    ghost use Rattle.std.specs.Prelude.{List, Option};
    ghost use Rattle.hub_work.specs.declared.crew.Held.{Held};

    ghost Value = { List (Option Held) };

    ghost view = { λ c. c.held.items };
}

impl Crew {
    /// So many workers, none of which holds a job.
    pub fn new(alloc: Global, workers: u8) -> Result<Crew, NoMemory>
        ensures { IfOk result (λ crew. crew ≡ replicate workers None) }
    {
        let held = Vec::from_elem(alloc, None, workers as usize)?;
        Ok(Crew {
            held,
            by_device: [0; 256],
        })
    }

    /// How many workers there are.
    pub fn len(&self) -> usize
        ensures { result ≡ length self.now }
    {
        self.held.len()
    }

    /// What the worker at a place, from 0, holds.
    pub fn at(&self, place: usize) -> Option<Held>
        ensures { result ≡ held_at self.now place }
    {
        match self.held.get(place) {
            Some(held) => *held,
            None => None,
        }
    }

    /// What the worker holds, from 1.
    pub fn held(&self, worker: u8) -> Option<Held>
        ensures place { 1 ≤ worker → result ≡ held_at self.now (worker - 1) }
        ensures from_1 { IfSome result (λ held. 1 ≤ worker) }
    {
        if worker == 0 {
            return None;
        }
        self.at(place_of(worker))
    }

    /// What the worker at a place, from 0, holds from now on.
    fn set(&mut self, place: usize, held: Option<Held>)
        ensures { self.new ≡ slice_set self.old place held }
    {
        if place < self.held.len() {
            self.held[place] = held;
        }
    }

    /// The worker took a job.
    pub fn takes(&mut self, worker: u8, job: u32, device: IndAddr)
        requires { 1 ≤ worker }
        ensures { self.new ≡ slice_set self.old (worker - 1) (Some (record { job = job; device = device; begun = false; came = 0 })) }
    {
        self.by_device[device.device() as usize] = worker;
        self.set(
            place_of(worker),
            Some(Held {
                job,
                device,
                begun: false,
                came: 0,
            }),
        );
    }

    /// Its job has ended.
    pub fn ends(&mut self, worker: u8)
        requires { 1 ≤ worker }
        ensures { self.new ≡ slice_set self.old (worker - 1) None }
    {
        self.set(place_of(worker), None);
    }

    /// An attempt of its job has sent its T_Connect.
    pub fn begins(&mut self, worker: u8)
        requires { 1 ≤ worker }
        ensures held { holdings self.new ≡ after_begun (worker - 1) (holdings self.old) }
        ensures came { (place : ℕ) → waiting_at self.new place ≡ waiting_at self.old place }
    {
        let place = place_of(worker);
        if let Some(held) = self.at(place) {
            self.set(
                place,
                Some(Held {
                    begun: true,
                    ..held
                }),
            );
        }
    }

    /// Something came for it, where it holds a job.
    pub fn came(&mut self, worker: u8)
        ensures held { holdings self.new ≡ holdings self.old }
        ensures came { RisesWhere (λ place. (place + 1 == worker) && holds_at self.old place) self.old self.new }
    {
        if worker != 0 {
            self.came_at(place_of(worker));
        }
    }

    /// Something came for the worker at a place, from 0, where it holds a job.
    pub fn came_at(&mut self, place: usize)
        ensures held { holdings self.new ≡ holdings self.old }
        ensures came { RisesWhere (λ other. (other == place) && holds_at self.old other) self.old self.new }
    {
        if let Some(held) = self.at(place) {
            let came = held.came.saturating_add(1);
            self.set(place, Some(Held { came, ..held }));
        }
    }

    /// Its turn takes one thing in that came.
    pub fn takes_in(&mut self, worker: u8)
        requires { 1 ≤ worker }
        ensures held { holdings self.new ≡ holdings self.old }
        ensures came { TakesOneIn worker self.old self.new }
    {
        let place = place_of(worker);
        if let Some(held) = self.at(place) {
            let came = held.came.saturating_sub(1);
            self.set(place, Some(Held { came, ..held }));
        }
    }

    /// The place, from 0, of the worker that holds a job of the device; None exactly where there is none.
    pub fn of_device(&self, device: IndAddr) -> Option<usize>
        ensures found { IfSome result (λ place. is_of_device device (held_at self.now place) ≡ true) }
        ensures none { result ≡ None → (place : ℕ) → is_of_device device (held_at self.now place) ≡ false }
    {
        let last = place_of(self.by_device[device.device() as usize]);
        if self.holds(last, device) {
            return Some(last);
        }
        self.place_of_device(device)
    }

    /// The first such place.
    fn place_of_device(&self, device: IndAddr) -> Option<usize>
        ensures found { IfSome result (λ place. is_of_device device (held_at self.now place) ≡ true) }
        ensures none { result ≡ None → (place : ℕ) → is_of_device device (held_at self.now place) ≡ false }
    {
        for place in 0..self.len() {
            if self.holds(place, device) {
                return Some(place);
            }
        }
        None
    }

    /// Whether the worker at a place, from 0, holds a job of the device.
    fn holds(&self, place: usize, device: IndAddr) -> bool
        ensures { result ≡ is_of_device device (held_at self.now place) }
    {
        is_of(&self.at(place), device)
    }
}

/// The place of a worker, which is counted from 1.
fn place_of(worker: u8) -> usize
    ensures { 1 ≤ worker → result ≡ worker - 1 }
{
    (worker as usize).wrapping_sub(1)
}

/// Whether it is a job of the device that is held.
fn is_of(held: &Option<Held>, device: IndAddr) -> bool
    ensures { result ≡ is_of_device device held.now }
{
    match held {
        Some(held) => held.device.raw == device.raw,
        None => false,
    }
}
