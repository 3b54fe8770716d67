//! Files and a sink in memory, each with a list of the calls that fail.

ghost use Rattle.std.specs.Prelude.{◌≡◌, ◌≢◌, ◌↔◌, [], ℕ, List, Contains, Err, IfOk, IsErr, MatchOption, OnErr, OnOk, Some};
ghost use Rattle.knx_model.specs.Memory.{content_of, faults_of, with_fault};
ghost use Rattle.knx_model.specs.Outside.{Absent, Holds, MayRead, Rose, Wrote, WroteFront, one_more};
ghost use Rattle.knx_model.specs.declared.outside.files.FileFault.TheVariants.{Failed};

use crate::lists::{Octets, front};
use crate::no_memory::NoMemory;
use crate::outside::files::{FileFault, Files};
use crate::outside::sink::{Sink, SinkFailed};
use std::alloc::Global;

/// A file in memory.
#[derive(Drop)]
pub struct MemoryFile {
    pub name: Octets,
    pub content: Octets,
    pub faults: u64,
}

impl MemoryFile {
    /// A file of this name and content, of which no read failed yet.
    pub fn new(alloc: Global, name: &str, content: &[u8]) -> Result<MemoryFile, NoMemory>
        ensures name { IfOk result (λ file. file.name ≡ name.now) }
        ensures content { IfOk result (λ file. file.content ≡ content.now) }
        ensures faults { IfOk result (λ file. file.faults ≡ 0) }
    {
        Ok(MemoryFile {
            name: Octets::from_slice(alloc, name.as_bytes())?,
            content: Octets::from_slice(alloc, content)?,
            faults: 0,
        })
    }
}

/// Files in memory; the first of a name counts. Calls are numbered from 1, and those in `failing` fail where there is such a file.
#[derive(Drop)]
pub struct MemoryFiles {
    pub files: Vec<MemoryFile>,
    pub failing: Vec<u64>,
    pub calls: u64,
}

impl MemoryFiles {
    /// Files of which no read fails.
    pub fn new(alloc: Global, files: Vec<MemoryFile>) -> MemoryFiles
        ensures files { result.files ≡ files }
        ensures fails { result.failing.items ≡ [] }
        ensures calls { result.calls ≡ 0 }
    {
        MemoryFiles {
            files,
            failing: Vec::new(alloc),
            calls: 0,
        }
    }
}

/// The file of a name.
fn file_of<'a>(files: &'a [MemoryFile], name: &[u8]) -> Option<&'a MemoryFile>
    ensures { MatchOption result (content_of files.now name.now ≡ Absent) (λ file. content_of files.now name.now ≡ Holds file.now.content) }
{
    for file in files {
        if file.name.as_slice() == name {
            return Some(file);
        }
    }
    None
}

/// Counts a read that failed with the file of its name.
fn count_fault(files: &mut [MemoryFile], name: &[u8])
    ensures { files.new ≡ with_fault name.now files.old }
{
    for file in files.iter_mut() {
        if file.name.as_slice() == name {
            file.faults = file.faults.saturating_add(1);
            return;
        }
    }
}

impl Files for MemoryFiles {
    ghost use Rattle.knx_model.specs.Memory.{content_of, faults_of};

    ghost now = { λ f. record { file = content_of f.files.items; faults = faults_of f.files.items; reads = f.calls } };

    fn read(&mut self, alloc: Global, name: &str, limit: usize) -> Result<Octets, FileFault>
        ensures answer { MayRead (content_of self.old.files.items name.now) limit result }
        ensures failed { result ≡ Err Failed → Rose (faults_of self.old.files.items name.now) (faults_of self.new.files.items name.now) }
        ensures still { result ≢ Err Failed → (other : List ℕ) → faults_of self.new.files.items other ≡ faults_of self.old.files.items other }
        ensures others { (other : List ℕ) → other ≢ name.now → faults_of self.new.files.items other ≡ faults_of self.old.files.items other }
        ensures stays { (other : List ℕ) → content_of self.new.files.items other ≡ content_of self.old.files.items other }
        ensures counted { self.new.calls ≡ one_more self.old.calls }
        // the calls in the list are those that fail, where there is such a file
        ensures listed { self.new.failing.items ≡ self.old.failing.items }
        ensures fails { (result ≡ Err Failed) ↔ (Contains self.old.failing.items self.new.calls × (content_of self.old.files.items name.now ≢ Absent)) }
        ensures counts { result ≡ Err Failed → self.new.files.items ≡ with_fault name.now self.old.files.items }
    {
        self.calls = self.calls.saturating_add(1);
        let Some(file) = file_of(self.files.as_slice(), name.as_bytes()) else {
            return Err(FileFault::NotThere);
        };
        if self.failing.contains(&self.calls) {
            count_fault(self.files.as_mut_slice(), name.as_bytes());
            return Err(FileFault::Failed);
        }
        let octets = Octets::from_slice(alloc, front(file.content.as_slice(), limit))?;
        Ok(octets)
    }
}

/// A sink in memory. Calls are numbered from 1, and those in `failing` fail and take nothing.
#[derive(Drop)]
pub struct MemorySink {
    pub taken: Octets,
    pub failing: Vec<u64>,
    pub calls: u64,
    pub faults: u64,
}

impl MemorySink {
    /// A sink that took nothing and of which no write fails.
    pub fn new(alloc: Global) -> MemorySink
        ensures taken { result.taken ≡ [] }
        ensures fails { result.failing.items ≡ [] }
        ensures counts { (result.calls ≡ 0) × (result.faults ≡ 0) }
    {
        MemorySink {
            taken: Octets::new(alloc),
            failing: Vec::new(alloc),
            calls: 0,
            faults: 0,
        }
    }
}

impl Sink for MemorySink {
    ghost use Rattle.std.specs.Prelude.{Some};

    ghost now = { λ s. record { faults = s.faults; writes = s.calls; taken = Some s.taken } };

    fn write(&mut self, octets: &[u8]) -> Result<(), SinkFailed>
        ensures all { OnOk result (Wrote octets.now (Some self.old.taken) (Some self.new.taken)) }
        ensures front { OnErr result (WroteFront octets.now (Some self.old.taken) (Some self.new.taken)) }
        ensures failed { OnErr result (Rose self.old.faults self.new.faults) }
        ensures still { OnOk result (self.new.faults ≡ self.old.faults) }
        ensures counted { self.new.calls ≡ one_more self.old.calls }
        // the calls in the list fail, and a call that fails takes nothing
        ensures listed { self.new.failing.items ≡ self.old.failing.items }
        ensures fails { Contains self.old.failing.items self.new.calls → IsErr result }
        ensures nothing { OnErr result (self.new.taken ≡ self.old.taken) }
        ensures counts { OnErr result (self.new.faults ≡ one_more self.old.faults) }
    {
        self.calls = self.calls.saturating_add(1);
        if self.failing.contains(&self.calls) || self.taken.append(octets).is_err() {
            self.faults = self.faults.saturating_add(1);
            return Err(SinkFailed);
        }
        Ok(())
    }
}
