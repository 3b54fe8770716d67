//! The jobs of one device, one after another.

ghost use Rattle.std.specs.Prelude.{◌≡◌, ◌≢◌, ℕ, ◌+◌, ◌*◌, ◌<◌, ◌≤◌, ◌==◌, ◌||◌, ◌&&◌, length, IfOk, IfSome, is_none, true, false};
ghost use Rattle.device_reservation.specs.Bits.{holds};
ghost use Rattle.device_reservation.specs.Chains.{IsFirst, AreNext, linked};

use crate::bits::Bits;
use knx_model::{IndAddr, NoMemory};
use std::alloc::Global;
use std::collections::BTreeMap;

/// Of each job the next one of its device, and the first job of each device.
#[derive(Drop)]
pub struct Chains {
    pub next: Vec<Option<u32>>,
    pub first: Bits,
}

impl Chains {
    /// Puts a job behind the one before it of its device, or into the set of the first ones.
    fn link(&mut self, before: Option<u32>, job: u32)
        requires behind { IfSome before (λ b. (1 ≤ b) × (b ≤ length self.old.next.items)) }
        requires room { job < 64 * length self.old.first }
        ensures next { self.new.next.items ≡ linked self.old.next.items before job }
        ensures limit { length self.new.first ≡ length self.old.first }
        ensures first { (n : ℕ) → holds self.new.first n ≡ (holds self.old.first n || (is_none before && n == job)) }
    {
        match before {
            Some(before) => self.next[before as usize - 1] = Some(job),
            None => self.first.insert(job as usize),
        }
    }

    /// The chains of the devices' jobs.
    pub fn of(alloc: Global, devices: &[IndAddr]) -> Result<Chains, NoMemory>
        requires { length devices.now < 4294967296 }
        ensures next { IfOk result (λ chains. AreNext devices.now chains.next.items) }
        ensures room { IfOk result (λ chains. length devices.now < 64 * length chains.first) }
        ensures first_are { IfOk result (λ chains. (job : ℕ) → holds chains.first job ≡ true → IsFirst devices.now job) }
        ensures are_first { IfOk result (λ chains. (job : ℕ) → IsFirst devices.now job → holds chains.first job ≡ true) }
    {
        let mut chains = Chains {
            next: Vec::from_elem(alloc, None, devices.len())?,
            first: Bits::none(alloc, devices.len() + 1)?,
        };
        let mut last = BTreeMap::new(alloc);
        for (index, device) in devices.iter().enumerate() {
            let job = index as u32 + 1;
            let before = last.insert(device.raw, job)?;
            chains.link(before, job);
        }
        Ok(chains)
    }
}
