//! The jobs of a run.

ghost use Rattle.std.specs.Prelude.{◌≡◌, ℕ, ◌<◌, ◌^◌, ◌↔◌, length, IfOk, IsTrue, Some};
ghost use Rattle.device_reservation.specs.Reservation.{device_of, IsFirstFree, AllWait, AllTaken, IsHeld, none_taken, after_take, job_ended, EarlierAreOver, NoneHeldTwice};

use crate::bits::Bits;
use crate::chains::Chains;
use crate::stage::Stage;
use crate::taken::Taken;
use knx_model::{IndAddr, NoMemory};
use std::alloc::Global;
use std::marker::Model;

/// The jobs of a run, each of one device, numbered from 1 in their order.
///
/// ```text
///              take                finish
///   Untaken ---------> Held by w ---------> Over
/// ```
#[derive(Drop)]
pub struct Jobs {
    devices: Vec<IndAddr>,
    stages: Vec<Stage>,
    /// Of each job the next one of its device.
    next: Vec<Option<u32>>,
    /// The jobs that are free, by their numbers.
    free: Bits,
    /// How many are untaken.
    untaken: u32,
}

impl Model for Jobs {
    ghost use Rattle.device_reservation.specs.Reservation.{Reservation};
    ghost use Rattle.device_reservation.specs.Kept.{IsKept};

    ghost Value = { Reservation };

    ghost view = { λ a. record { devices = a.devices.items; stages = a.stages.items } };

    ghost invariant = { λ a. IsKept (record { devices = a.devices.items; stages = a.stages.items }) a.next.items a.free a.untaken };
}

impl Jobs {
    /// The jobs of these devices, job k of the k-th, all untaken.
    pub fn new(alloc: Global, devices: &[IndAddr]) -> Result<Jobs, NoMemory>
        requires { length devices.now < 4294967296 }
        ensures { IfOk result (λ jobs. jobs ≡ none_taken devices.now) }
    {
        let Chains { next, first } = Chains::of(alloc, devices)?;
        let stages = Vec::from_elem(alloc, Stage::Untaken, devices.len())?;
        let devices = Vec::from_slice(alloc, devices)?;
        let untaken = devices.len() as u32;
        Ok(Jobs {
            devices,
            stages,
            next,
            free: first,
            untaken,
        })
    }

    /// The devices of the jobs, in the jobs' order.
    pub fn devices(&self) -> &[IndAddr]
        ensures { result.now ≡ self.now.devices }
    {
        self.devices.as_slice()
    }

    /// The first job that is free, which the worker holds from now on.
    pub fn take(&mut self, worker: u8) -> Taken
        ensures job { (k : ℕ) → (result ≡ Taken.Job k) ↔ IsFirstFree self.old k }
        ensures later { (result ≡ Taken.Later) ↔ AllWait self.old }
        ensures no_more { (result ≡ Taken.NoMore) ↔ AllTaken self.old }
        ensures after { self.new ≡ after_take worker result self.old }
    {
        match self.free.first() {
            Some(job) => {
                self.free.remove(job);
                self.stages[job - 1] = Stage::Held(worker);
                self.untaken -= 1;
                Taken::Job(job as u32)
            }
            None if self.untaken > 0 => Taken::Later,
            None => Taken::NoMore,
        }
    }

    /// Whether the job is held.
    pub fn is_held(&self, job: u32) -> bool
        ensures { IsTrue result ↔ IsHeld self.now job }
    {
        if job == 0 {
            return false;
        }
        matches!(self.stages.get(job as usize - 1), Some(Stage::Held(_)))
    }

    /// The device of a job that is held.
    pub fn device_of(&self, job: u32) -> IndAddr
        requires { IsHeld self.now job }
        ensures { device_of self.now job ≡ Some result }
    {
        self.devices[job as usize - 1]
    }

    /// Ends a job that is held. The next job of its device may begin.
    pub fn finish(&mut self, job: u32)
        requires { IsHeld self.old job }
        ensures { self.new ≡ job_ended job self.old }
    {
        let index = job as usize - 1;
        self.stages[index] = Stage::Over;
        if let Some(next) = self.next[index] {
            self.free.insert(next as usize);
        }
    }

    /// No device is held by two jobs, and where a job has been taken, the earlier ones of its device are over.
    pub fn no_device_is_held_twice(&self)
        ensures once { NoneHeldTwice self.now }
        ensures in_order { EarlierAreOver self.now }
    {
        let _stages = &self.stages;
    }
}
