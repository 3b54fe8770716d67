//! An output: what it took is what its writer took, and it counts its writes and those that failed.

ghost use Rattle.std.specs.IoError.{error_kind};
ghost use Rattle.std.specs.Prelude.{◌≡◌, ◌≤◌, ◌↔◌, ℕ, IfOk, IsOk, OnErr, OnOk, length, take};
ghost use Rattle.std.specs.Io.KnownBytes.{Appends, WriteAppends};

use knx_model::{Sink, SinkFailed};
use std::io::{self, ErrorKind, Printer, Write};

/// A writer that tells either always or never what it took.
pub trait Steady: Write + Drop {
    ghost use Rattle.std.specs.Prelude.{◌≡◌, None};

    ghost steady: { (before after : Self) → Self.contents before ≡ None → Self.contents after ≡ None };
}

impl<P: Print> Steady for Printer<'_, P> {
    ghost steady = { λ before after silent. silent };
}

/// An output.
#[derive(Drop)]
pub struct Output<W> {
    writer: W,
    writes: u64,
    faults: u64,
}

impl<W: Steady> Output<W> {
    /// An output to which nothing was written yet.
    pub fn new(writer: W) -> Self
        ensures writer { result.writer ≡ writer }
        ensures counts { (result.writes ≡ 0) × (result.faults ≡ 0) }
    {
        Output {
            writer,
            writes: 0,
            faults: 0,
        }
    }
}

/// A write that a signal interrupted took nothing, and is to be tried again; any other error is a failure.
fn unless_interrupted(error: &io::Error) -> Result<usize, SinkFailed>
    ensures again { IsOk result ↔ (error_kind error.now ≡ ErrorKind.Interrupted) }
    ensures nothing { IfOk result (λ count. count ≡ 0) }
{
    match error.kind() {
        ErrorKind::Interrupted => Ok(0),
        _ => Err(SinkFailed),
    }
}

/// One write, which takes a front of the octets.
fn write_some<W: Write>(writer: &mut W, octets: &[u8]) -> Result<usize, SinkFailed>
    ensures within { IfOk result (λ count. count ≤ length octets.now) }
    ensures front { WriteAppends (W.contents writer.old) (W.contents writer.new) result octets.now }
{
    match writer.write(octets) {
        Ok(0) => Err(SinkFailed),
        Ok(count) => Ok(count),
        Err(error) => unless_interrupted(&error),
    }
}

/// Writes all of the octets and sees them out, or only a front of them.
fn write_out<W: Write>(writer: &mut W, octets: &[u8]) -> Result<(), SinkFailed>
    ensures all { OnOk result (Appends (W.contents writer.old) (W.contents writer.new) octets.now) }
    ensures front { OnErr result ((n : ℕ) × Appends (W.contents writer.old) (W.contents writer.new) (take n octets.now)) }
{
    let mut taken = 0;
    // no writer is interrupted so often; that a `loop` ends would have to be proved of the writer
    for _ in 0..u64::MAX {
        if taken == octets.len() {
            return writer.flush().map_err(|_| SinkFailed);
        }
        taken += write_some(writer, &octets[taken..])?;
    }
    Err(SinkFailed)
}

impl<W: Steady> Sink for Output<W> {
    ghost now = { λ o. record { faults = o.faults; writes = o.writes; taken = W.contents o.writer } };

    fn write(&mut self, octets: &[u8]) -> Result<(), SinkFailed> {
        self.writes = self.writes.saturating_add(1);
        let written = write_out(&mut self.writer, octets);
        if written.is_err() {
            self.faults = self.faults.saturating_add(1);
        }
        written
    }
}

#[cfg(test)]
mod tests {
    use super::*;
    use crate::disk::Disk;
    use knx_model::{FileFault, Files};
    use std::fs::{self, File};
    use std::test::Fail;

    impl Steady for File {
        ghost steady = { λ before after silent. silent };
    }

    /// Takes seven octets at a time, is interrupted once, and then fails.
    #[derive(Drop)]
    struct Trickle {
        room: usize,
        interrupted: bool,
    }

    impl Write for Trickle {
        fn write(&mut self, octets: &[u8]) -> io::Result<usize> {
            if !self.interrupted {
                self.interrupted = true;
                return Err(io::Error::from(ErrorKind::Interrupted));
            }
            if self.room == 0 {
                return Err(io::Error::from(ErrorKind::BrokenPipe));
            }
            let count = octets.len().min(7).min(self.room);
            self.room -= count;
            Ok(count)
        }

        fn flush(&mut self) -> io::Result<()> {
            Ok(())
        }
    }

    impl Steady for Trickle {
        ghost steady = { λ before after silent. silent };
    }

    #[test]
    fn a_writer_that_takes_little_is_written_to_its_end(rt: HostRuntime) {
        let text = b"an output of more than seven octets".as_slice();
        for (room, written) in [(35, Ok(())), (34, Err(SinkFailed)), (0, Err(SinkFailed))] {
            let mut out = Output::new(Trickle {
                room,
                interrupted: false,
            });
            assert_eq!(rt; out.write(text), written, "{room}");
        }
    }

    #[test]
    fn what_is_written_whole_is_read_whole(rt: HostRuntime) -> Result<(), Fail> {
        let alloc = rt.alloc();
        let long: Vec<u8> = (0..4_194_306u32).map(|i| (i % 251) as u8).collect(alloc)?;
        // two names that differ by a blank
        let texts = [("edge.txt", long.as_slice()), ("edge.txt ", b"short")];
        let mut disk = Disk::new(alloc, &rt);
        for (name, text) in texts {
            let mut out = Output::new(fs::create(&rt, name)?);
            assert_eq!(rt; out.write(text), Ok(()));
        }
        for (name, text) in texts {
            let whole = disk.read(alloc, name, 4_194_305).ok();
            let front = disk.read(alloc, name, 3).ok();
            fs::remove_file(&rt, name)?;
            let absent = disk.read(alloc, name, 3).err();
            let most = text.len().min(4_194_305);
            assert!(rt; whole.ok_or("whole")?.as_slice() == &text[..most]);
            let front = front.ok_or("front")?;
            assert_eq!(rt; front.len(), 3);
            assert!(rt; text.starts_with(front.as_slice()));
            assert_eq!(rt; absent, Some(FileFault::NotThere));
        }
        let folder = disk.read(alloc, ".", 3).err();
        assert_eq!(rt; folder, Some(FileFault::Failed));
        Ok(())
    }
}
