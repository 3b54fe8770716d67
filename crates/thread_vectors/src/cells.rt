//! Eight threads that write into one list by turns.

ghost use Rattle.std.specs.Prelude.{◌≡◌, ◌+◌, ◌-◌, ◌<◌, ◌≤◌, ◌∷◌, ◌++◌, [], false, OnOk, OnErr};
ghost use Rattle.std.specs.Thread.{IsSync};

use knx_model::NoMemory;
use std::alloc::Global;
use std::sync::Wait;
use std::test::Fail;
use std::thread::{Threads, join};
use turn_cell::{Logged, Seat, Turn};

const WRITERS: u8 = 8;

const TURNS: u64 = 100;

/// Who wrote, turn by turn.
#[derive(Drop)]
struct Written {
    origin: u8,
    by: Vec<u8>,
}

impl Logged for Written {
    type Entry = u8;

    ghost list = { λ written. written.origin ∷ written.by.items };

    fn entries(&self) -> u64 {
        self.by.len() as u64
    }
}

impl Written {
    fn write(&mut self, writer: u8) -> Result<(), NoMemory>
        ensures origin { self.new.origin ≡ self.old.origin }
        ensures ok { OnOk result (self.new.by.items ≡ self.old.by.items ++ writer ∷ []) }
        ensures err { OnErr result (self.new.by.items ≡ self.old.by.items) }
    {
        self.by.push(writer)?;
        Ok(())
    }
}

/// One turn. A list that can't grow is given back as it was.
fn write_once<R: Wait>(rt: &R, cell: &Turn<Written>, seat: &mut Seat<Written>, writer: u8)
    requires of { seat.old.cell ≡ cell.now.id }
    requires free { seat.old.turn ≡ false }
    ensures of { seat.new.cell ≡ seat.old.cell }
    ensures free { seat.new.turn ≡ false }
    ensures parts { seat.new.parts ≡ seat.old.parts }
{
    let mut written = cell.take(rt, seat);
    let _ = written.write(writer);
    cell.give(seat, written);
}

fn write_all<R: Wait>(
    rt: &R,
    cell: &Turn<Written>,
    mut seat: Seat<Written>,
    writer: u8,
) -> Seat<Written>
    requires of { seat.cell ≡ cell.now.id }
    requires free { seat.turn ≡ false }
    ensures of { result.cell ≡ seat.cell }
    ensures free { result.turn ≡ false }
    ensures parts { result.parts ≡ seat.parts }
{
    for _ in 0..TURNS {
        write_once(rt, cell, &mut seat, writer);
    }
    seat
}

/// The writers from 1 to `count`, each in a thread of its own.
fn run<R: Threads + Wait + Sync>(
    rt: &R,
    cell: &Turn<Written>,
    mut seat: Seat<Written>,
    count: u8,
) -> Seat<Written>
    requires of { seat.cell ≡ cell.now.id }
    requires free { seat.turn ≡ false }
    requires some { 0 < count }
    requires parts { count ≤ seat.parts }
    ensures of { result.cell ≡ seat.cell }
    ensures free { result.turn ≡ false }
    ensures parts { result.parts ≡ seat.parts }
{
    if count == 1 {
        return write_all(rt, cell, seat, count);
    }
    let other = cell.split(&mut seat);
    let (mut all, last) = join(
        rt,
        move || -> Seat<Written>
            requires { IsSync R.row × (seat.cell ≡ cell.now.id) × (seat.turn ≡ false) × (1 < count) × (count ≤ seat.parts + 1) }
            ensures { (result.cell ≡ seat.cell) × (result.turn ≡ false) × (result.parts ≡ seat.parts) }
        { run(rt, cell, seat, count - 1) },
        move || -> Seat<Written>
            requires { (other.cell ≡ cell.now.id) × (other.turn ≡ false) }
            ensures { (result.cell ≡ other.cell) × (result.turn ≡ false) × (result.parts ≡ other.parts) }
        { write_all(rt, cell, other, count) },
    );
    cell.join(&mut all, last);
    all
}

/// What all writers wrote from the cell's first seat on, and how many entries were published at the end.
fn written_by_all<R: Threads + Wait + Sync>(
    rt: &R,
    cell: Turn<Written>,
    first: Seat<Written>,
) -> (Written, u64)
    requires of { first.cell ≡ cell.id }
    requires free { first.turn ≡ false }
    requires whole { first.parts ≡ 16 }
{
    let mut all = run(rt, &cell, first, WRITERS);
    let published = cell.look(&mut all);
    (cell.close(all), published)
}

fn all_written<R: Threads + Wait + Sync>(
    rt: &R,
    alloc: Global,
) -> Result<(Written, u64), NoMemory> {
    let written = Written {
        origin: 0,
        by: Vec::new(alloc),
    };
    match Turn::new(alloc, written) {
        Ok((cell, first)) => Ok(written_by_all(rt, cell, first)),
        Err((_written, refused)) => Err(refused),
    }
}

#[test]
fn eight_threads_write_by_turns(rt: HostRuntime) -> Result<(), Fail> {
    let (written, published) = all_written(&rt, rt.alloc())?;
    assert_eq!(rt; published, u64::from(WRITERS) * TURNS);
    for writer in 1..=WRITERS {
        let turns = written.by.iter().filter(|by| **by == writer).count();
        assert_eq!(rt; turns as u64, TURNS, "of writer {writer}");
    }
    Ok(())
}
