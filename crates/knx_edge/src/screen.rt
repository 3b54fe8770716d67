//! Who watches a run for somebody at a terminal.

ghost use Rattle.std.specs.Prelude.{◌≡◌};
ghost use Rattle.line_model.specs.Watched.{Untold};

use arrayvec::ArrayString;
use knx_model::IndAddr;
use line_model::{JobProgress, LogEntry, LogWhat, Watcher};
use std::fmt::{self, Write as _};
use std::io::Write;

/// So many workers have a line at most.
const MOST_WORKERS: usize = 8;

/// A text for one write: more than the lines of all workers.
const LONGEST: usize = 1024;

/// What is written at once. What has no room is left out.
type Text = ArrayString<LONGEST>;

/// The job that a worker holds.
#[derive(Clone, Copy, Drop)]
struct Row {
    job: u32,
    device: IndAddr,
    done: u32,
    all: u32,
    /// When it was told of first, in milliseconds.
    since: u64,
    /// And last.
    now: u64,
}

impl Row {
    /// Adds its line: `1.1.5 job 5: 45 of 310 operations, 12 s`.
    fn write_to(&self, text: &mut Text) -> fmt::Result {
        self.begin(text)?;
        let seconds = self.now.saturating_sub(self.since) / 1000;
        writeln!(
            text,
            "{} of {} operations, {} s",
            self.done, self.all, seconds
        )
    }

    /// Adds the line of a job that has come to this end: `1.1.5 job 5: done, 12 s`.
    fn write_end_to(&self, text: &mut Text, end: &str) -> fmt::Result {
        self.begin(text)?;
        let seconds = self.now.saturating_sub(self.since) / 1000;
        writeln!(text, "{}, {} s", end, seconds)
    }

    fn begin(&self, text: &mut Text) -> fmt::Result {
        let IndAddr { raw } = self.device;
        write!(
            text,
            "{}.{}.{} job {}: ",
            raw >> 12,
            raw >> 8 & 15,
            raw & 255,
            self.job
        )
    }
}

/// What an entry of the log says of a job's end.
fn end_of(what: &LogWhat) -> Option<&'static str> {
    match what {
        LogWhat::Done(_) => Some("done"),
        LogWhat::Failed(..) => Some("failed"),
        LogWhat::Refused { .. } => Some("refused"),
        LogWhat::Took(_) | LogWhat::Sent(_) | LogWhat::Lost(_) => None,
    }
}

/// A terminal that shows a run while it goes on: at the bottom a line for each job that a worker holds, which is written anew where it changes, and above a line for
/// each that has ended. What can't be written isn't shown.
#[derive(Drop)]
pub struct Screen<W> {
    writer: W,
    rows: [Option<Row>; MOST_WORKERS],
    /// How many lines are at the bottom.
    shown: usize,
}

impl<W: Write + Drop> Screen<W> {
    /// A terminal on which nothing is shown yet.
    pub fn new(writer: W) -> Screen<W> {
        Screen {
            writer,
            rows: [None; MOST_WORKERS],
            shown: 0,
        }
    }

    /// Writes the lines at the bottom anew, below the line of a job that has ended, where one has.
    fn show(&mut self, ended: Option<(Row, &str)>) {
        let mut text = Text::new();
        if self.fill(&mut text, ended).is_ok() {
            let _ = self.writer.write_all(text.as_str().as_bytes());
        }
        self.shown = self.rows.iter().flatten().count();
    }

    fn fill(&self, text: &mut Text, ended: Option<(Row, &str)>) -> fmt::Result {
        if self.shown > 0 {
            // up so many lines, and clear to the end of the screen (ISO/IEC 6429, CUU and ED)
            write!(text, "\x1b[{}A\x1b[J", self.shown)?;
        }
        if let Some((row, end)) = ended {
            row.write_end_to(text, end)?;
        }
        for row in self.rows.iter().flatten() {
            row.write_to(text)?;
        }
        Ok(())
    }
}

/// The place of a worker, from 1.
fn place_of(worker: u8) -> Option<usize> {
    (worker as usize).checked_sub(1)
}

impl<W: Write + Drop> Watcher for Screen<W> {
    ghost watch = { λ _. Untold };

    fn entry(&mut self, entry: &LogEntry) {
        let Some(end) = end_of(&entry.what) else {
            return;
        };
        let Some(place) = place_of(entry.worker) else {
            return;
        };
        let Some(row) = self.rows.get_mut(place) else {
            return;
        };
        if let Some(row) = row.take() {
            self.show(Some((row, end)));
        }
    }

    fn progress(&mut self, progress: JobProgress) {
        let Some(place) = place_of(progress.worker) else {
            return;
        };
        let Some(row) = self.rows.get_mut(place) else {
            return;
        };
        let since = match row {
            Some(row) if row.job == progress.job => row.since,
            _ => progress.now,
        };
        *row = Some(Row {
            job: progress.job,
            device: progress.device,
            done: progress.done,
            all: progress.all,
            since,
            now: progress.now,
        });
        self.show(None);
    }
}
