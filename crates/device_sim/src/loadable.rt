//! A loadable object: its load machine, and the memory of which its segment is the front.

ghost use Rattle.std.specs.Prelude.{◌≡◌, ◌+◌, ◌-◌, ◌≤◌, length, IfOk, take, drop, [], ◌++◌, replicate, nat_lt, if◌then◌else◌};
ghost use Rattle.knx_model.specs.Loading.{load_step, load_torn, memory_written, memory_torn, takes_write, allocates, has_range, octets_of, overlaid, capacity_of, with_memory, is_loaded};
ghost use Rattle.knx_model.specs.DeviceState.{blank_object, loaded_object};
ghost use Rattle.knx_model.specs.Device.{front_of_load};

use knx_model::{LoadEvent, LoadState, NoMemory, front};
use load_machine::LoadMachine;
use std::alloc::Global;
use std::marker::Model;

/// A loadable object with its load machine and its memory.
#[derive(Drop)]
pub struct Loadable {
    machine: LoadMachine,
    memory: Vec<u8>,
}

impl Model for Loadable {
    ghost use Rattle.std.specs.Prelude.{◌≤◌, length};
    ghost use Rattle.knx_model.specs.Loading.{Loadable};

    ghost Value = { Loadable };

    ghost view = { λ s. record { state = s.machine.state; len = s.machine.len; memory = s.memory.items } };

    ghost invariant = { λ s. (s.machine.len ≤ length s.memory.items) × (length s.memory.items ≤ 65535) };
}

impl Loadable {
    /// An object to which nothing was loaded, with a memory of `capacity` octets.
    #[tactic(auto, unfolding(knx_model::specs::DeviceState::blank_object))]
    pub fn blank(alloc: Global, capacity: u16) -> Result<Loadable, NoMemory>
        ensures { IfOk result (λ made. made ≡ blank_object capacity) }
    {
        let memory = vec![in alloc; 0; capacity as usize]?;
        Ok(Loadable {
            machine: LoadMachine::unloaded(),
            memory,
        })
    }

    /// An object that is loaded with this list.
    pub fn loaded(alloc: Global, capacity: u16, list: &[u8]) -> Result<Loadable, NoMemory>
        requires { length list.now ≤ capacity }
        ensures { IfOk result (λ made. made ≡ loaded_object capacity list.now) }
    {
        let memory = memory_with(alloc, capacity as usize, list)?;
        Ok(Loadable {
            machine: LoadMachine::loaded(list.len() as u16),
            memory,
        })
    }

    /// Its load state.
    pub fn state(&self) -> LoadState
        ensures { result ≡ self.now.state }
    {
        self.machine.state()
    }

    /// The octets of the segment.
    pub fn octets(&self) -> &[u8]
        ensures value { result.now ≡ octets_of self.now }
        ensures len { length result.now ≡ self.now.len }
    {
        &self.memory[..self.machine.len() as usize]
    }

    /// Whether it is Loaded.
    pub fn is_loaded(&self) -> bool
        ensures { result ≡ is_loaded self.now.state }
    {
        self.machine.is_loaded()
    }

    fn capacity(&self) -> u16
        ensures { result ≡ capacity_of self.now }
    {
        self.memory.len() as u16
    }

    fn allocates(&self, size: u32) -> bool
        ensures { result ≡ allocates self.now size }
    {
        self.machine.allocates(size, self.capacity())
    }

    /// Takes a load event.
    pub fn load(&mut self, event: LoadEvent)
        ensures { self.new ≡ load_step self.old event }
    {
        self.fill_allocated(event);
        let capacity = self.capacity();
        self.machine.load(event, capacity);
    }

    /// An allocation that is taken fills its octets.
    fn fill_allocated(&mut self, event: LoadEvent)
        ensures { self.new ≡ with_memory self.old (load_step self.old event).memory }
    {
        if let LoadEvent::Allocate { size, fill } = event {
            if self.allocates(size) {
                fill_front(self.memory.as_mut_slice(), size as usize, fill);
            }
        }
    }

    /// Takes a load event that a power cut tears, so that of the octets that it writes only the first `k` are written. State
    /// and length are new but where `k` is 0.
    pub fn load_torn(&mut self, event: LoadEvent, k: u32)
        ensures { self.new ≡ load_torn self.old event (nat_lt 0 k) (front_of_load event k) }
    {
        self.fill_torn(event, k);
        if k > 0 {
            let capacity = self.capacity();
            self.machine.load(event, capacity);
        }
    }

    fn fill_torn(&mut self, event: LoadEvent, k: u32)
        ensures { self.new ≡ with_memory self.old (load_torn self.old event (nat_lt 0 k) (front_of_load event k)).memory }
    {
        if let LoadEvent::Allocate { size, fill } = event {
            if self.allocates(size) {
                fill_torn(self.memory.as_mut_slice(), size as usize, fill, k as usize);
            }
        }
    }

    /// Whether n octets from `at` on lie within the segment.
    fn has_range(&self, at: usize, n: usize) -> bool
        ensures { result ≡ has_range self.now at n }
    {
        let len = self.machine.len() as usize;
        n <= len && at <= len - n
    }

    /// Whether a memory write of n octets is taken.
    pub fn takes_write(&self, at: usize, n: usize) -> bool
        ensures { result ≡ takes_write self.now at n }
    {
        self.machine.is_loading() && self.has_range(at, n)
    }

    /// Takes a memory write.
    pub fn write(&mut self, at: usize, octets: &[u8])
        ensures { self.new ≡ memory_written self.old at octets.now }
    {
        if self.takes_write(at, octets.len()) {
            overlay(self.memory.as_mut_slice(), at, octets);
        }
    }

    /// Takes a memory write of n octets, in whose range these octets then stand.
    pub fn write_torn(&mut self, at: usize, n: usize, octets: &[u8])
        ensures { self.new ≡ memory_torn self.old at n octets.now }
    {
        if self.takes_write(at, n) {
            overlay(self.memory.as_mut_slice(), at, front(octets, n));
        }
    }

    /// The n octets from `at` on, and none where these don't lie within the segment.
    pub fn range(&self, at: usize, n: usize) -> &[u8]
        ensures { result.now ≡ (if has_range self.now at n then take n (drop at (octets_of self.now)) else []) }
    {
        if self.has_range(at, n) {
            part(self.octets(), at, n)
        } else {
            &[]
        }
    }
}

fn part(octets: &[u8], at: usize, n: usize) -> &[u8]
    requires { at + n ≤ length octets.now }
    ensures { result.now ≡ take n (drop at octets.now) }
{
    let rest = &octets[at..];
    &rest[..n]
}

fn fill_front(memory: &mut [u8], n: usize, fill: u8)
    requires { n ≤ length memory.old }
    ensures { memory.new ≡ replicate n fill ++ drop n memory.old }
{
    memory[..n].fill(fill);
}

/// Of the n octets of the fill the first `k` are written.
#[tactic(auto, using(crate::proofs::Memory::overlaid_filled))]
fn fill_torn(memory: &mut [u8], n: usize, fill: u8, k: usize)
    requires { n ≤ length memory.old }
    ensures { memory.new ≡ overlaid memory.old 0 (take n (take k (replicate n fill))) }
{
    fill_front(memory, k.min(n), fill);
}

/// A memory of `size` octets that begins with a list, and is else 0.
#[tactic(auto, using(crate::proofs::Memory::rest_blank))]
fn memory_with(alloc: Global, size: usize, list: &[u8]) -> Result<Vec<u8>, NoMemory>
    requires { length list.now ≤ size }
    ensures { IfOk result (λ memory. memory.items ≡ list.now ++ replicate (size - length list.now) 0) }
{
    let mut memory = vec![in alloc; 0; size]?;
    put_front(memory.as_mut_slice(), list);
    Ok(memory)
}

fn put_front(memory: &mut [u8], list: &[u8])
    requires { length list.now ≤ length memory.old }
    ensures { memory.new ≡ list.now ++ drop (length list.now) memory.old }
{
    memory[..list.len()].copy_from_slice(list);
}

fn overlay(memory: &mut [u8], at: usize, octets: &[u8])
    requires { at + length octets.now ≤ length memory.old }
    ensures { memory.new ≡ overlaid memory.old at octets.now }
{
    let end = at + octets.len();
    memory[at..end].copy_from_slice(octets);
}
