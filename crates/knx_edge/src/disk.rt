//! Files on disk. What a file holds is read whole or not at all, and a read that failed is kept by its name. A file that isn't there and
//! want of memory are answers of their own, and aren't counted.

ghost use Rattle.std.specs.Prelude.{◌≡◌, ◌≤◌, ◌↔◌, ◌++◌, ◌∷◌, [], Err, IfErr, IfOk, IfSome, IsSome, OnErr, OnOk, length, take};
ghost use Rattle.std.specs.IoError.{error_kind};
ghost use Rattle.knx_edge.specs.Disk.{fault_of};

use knx_model::{FileFault, Files, NoMemory, Octets};
use std::alloc::{AllocError, Global};
use std::fs::File;
use std::io::{self, ErrorKind, Read};
use std::rt;

/// The files of the system.
#[derive(Drop)]
pub struct Disk<'a, R> {
    rt: &'a R,
    reads: u64,
    /// The names of the reads that failed.
    failed: Vec<Octets>,
}

impl<'a, R: rt::Files> Disk<'a, R> {
    /// The files of the system, of which no read failed yet.
    pub fn new(alloc: Global, rt: &'a R) -> Self
        ensures { (result.reads ≡ 0) × (result.failed.items ≡ []) }
    {
        Disk {
            rt,
            reads: 0,
            failed: Vec::new(alloc),
        }
    }
}

/// Want of memory, where an error is that.
pub fn memory_of(error: &io::Error) -> Option<NoMemory>
    ensures { IsSome result ↔ (error_kind error.now ≡ ErrorKind.OutOfMemory) }
{
    match error.kind() {
        // the system tells of the refused growth without handing it over
        ErrorKind::OutOfMemory => Some(NoMemory::from(AllocError)),
        _ => None,
    }
}

/// The fault that an error is.
fn fault_of(error: &io::Error) -> FileFault
    ensures { result ≡ fault_of (error_kind error.now) }
{
    if let Some(want) = memory_of(error) {
        return FileFault::NoMemory(want);
    }
    match error.kind() {
        ErrorKind::NotFound | ErrorKind::NotADirectory => FileFault::NotThere,
        _ => FileFault::Failed,
    }
}

/// The first `limit` octets of a source, all of them where it has fewer.
fn read_front<F: Read + Drop>(alloc: Global, source: F, limit: usize) -> io::Result<Vec<u8>>
    ensures front { IfOk result (λ octets. IfSome (F.remaining source) (λ held. octets.items ≡ take limit held)) }
    ensures within { IfOk result (λ octets. length octets.items ≤ limit) }
{
    let mut octets = Vec::new(alloc);
    source.take(limit as u64).read_to_end(&mut octets)?;
    // where a source tells nothing of what it has, std's contract doesn't bound what `take` lets through
    octets.truncate(limit);
    Ok(octets)
}

/// The first `limit` octets of what was opened, or the fault that kept it from being opened or read.
fn read_opened<F: Read + Drop>(
    alloc: Global,
    opened: io::Result<F>,
    limit: usize,
) -> Result<Octets, FileFault>
    ensures front { IfOk opened (λ source. IfOk result (λ octets. IfSome (F.remaining source) (λ held. octets ≡ take limit held))) }
    ensures within { IfOk result (λ octets. length octets ≤ limit) }
    ensures unopened { IfErr opened (λ error. result ≡ Err (fault_of (error_kind error))) }
{
    let read = match opened {
        Ok(source) => read_front(alloc, source, limit),
        Err(error) => Err(error),
    };
    match read {
        Ok(octets) => Ok(Octets::from_vec(octets)),
        Err(error) => Err(fault_of(&error)),
    }
}

/// Keeps the name of a read that failed.
fn keep(failed: &mut Vec<Octets>, alloc: Global, name: &str) -> Result<(), NoMemory>
    ensures kept { OnOk result (failed.new.items ≡ failed.old.items ++ name.now ∷ []) }
    ensures refused { OnErr result (failed.new.items ≡ failed.old.items) }
{
    let name = Octets::from_slice(alloc, name.as_bytes())?;
    failed.push(name)?;
    Ok(())
}

impl<R: rt::Files> Files for Disk<'_, R> {
    ghost use Rattle.knx_model.specs.Outside.{Untold};
    ghost use Rattle.knx_edge.specs.Disk.{faults_of};

    ghost now = { λ d. record { file = λ name. Untold; faults = faults_of d.failed.items; reads = d.reads } };

    fn read(&mut self, alloc: Global, name: &str, limit: usize) -> Result<Octets, FileFault> {
        self.reads = self.reads.saturating_add(1);
        match read_opened(alloc, File::open(self.rt, name), limit) {
            Ok(octets) => Ok(octets),
            Err(FileFault::Failed) => {
                keep(&mut self.failed, alloc, name)?;
                Err(FileFault::Failed)
            }
            Err(fault) => Err(fault),
        }
    }
}

#[cfg(test)]
mod tests {
    use super::*;
    use std::test::Fail;

    /// Gives seven octets at a time, and then ends or fails.
    #[derive(Drop)]
    struct Trickle<'a> {
        rest: &'a [u8],
        fails: bool,
    }

    impl Read for Trickle<'_> {
        fn read(&mut self, buffer: &mut [u8]) -> io::Result<usize> {
            if self.rest.is_empty() && self.fails {
                return Err(io::Error::from(ErrorKind::TimedOut));
            }
            let (mut front, rest) = self.rest.split_at(self.rest.len().min(7).min(buffer.len()));
            self.rest = rest;
            front.read(buffer)
        }
    }

    #[test]
    fn a_source_that_reads_short_is_read_to_its_end(rt: HostRuntime) -> Result<(), Fail> {
        let rest = b"a source of more than seven octets".as_slice();
        let whole = read_front(rt.alloc(), Trickle { rest, fails: false }, 100)?;
        assert_eq!(rt; whole.as_slice(), rest);
        let failed = read_front(rt.alloc(), Trickle { rest, fails: true }, 100).err();
        assert_eq!(rt; failed.map(|error| error.kind()), Some(ErrorKind::TimedOut));
        Ok(())
    }
}
