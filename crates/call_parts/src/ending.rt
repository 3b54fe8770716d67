//! How a call ends, and what is written of that.

ghost use Rattle.std.specs.Prelude.{◌≡◌, IfErr, IfOk};
ghost use Rattle.call_words.specs.declared.stop.Stop.TheVariants.{NoMemory as OutOfMemory};
ghost use Rattle.call_words.specs.ReportText.{stop_text};
ghost use Rattle.knx_model.specs.Outside.{one_more};
ghost use Rattle.call_parts.specs.Ending.{IsTextOf, RepliesOf, Writes, end_told, open_line, report_in};

use crate::given::{AssignEnd, assign_status, assign_text};
use crate::searched::{LINK_FAULT, SearchEnd, search_status, search_text};
use call_words::{JobWord, Status, Stop};
use knx_model::{Counts, List, NoMemory, Octets, Sink, put_number_word, put_word};
use line_model::Report;
use report_text::{
    DeviceShown, NO_MEMORY, line_report_of, line_status, stop_status, stop_text, sums_text,
};
use std::alloc::Global;

/// What is told where a serving came to its end.
const ENDED: &[u8] = b"ended\n";

/// A run that is over, and what is shown of it.
#[derive(Drop)]
pub struct Reported {
    pub report: Report,
    pub jobs: List<JobWord>,
    /// How many group telegrams were to be sent.
    pub turns: u32,
    /// The devices of the simulated line; none of a dialled one.
    pub devices: List<DeviceShown>,
    /// Whether the log is printed.
    pub log: bool,
}

/// How a serving at a port ends.
#[derive(Drop)]
pub enum ServiceEnd {
    /// It came to its end.
    Ended,
    /// All turns were used before that, so many.
    OpenTurns(u32),
    /// A call of the port or of the line failed.
    Failed,
    /// There was no memory to go on.
    Unserved(NoMemory),
}

/// How a call ends.
#[derive(Drop)]
pub enum End {
    /// It stops before anything is begun.
    Stops(Stop),
    /// It tells this text.
    Tells(Octets),
    /// The gateway wasn't reached, or the port not bound.
    NotOpened,
    /// A run is over, and there was no memory for what is shown of it.
    BreaksOff(Report, NoMemory),
    /// A run is over.
    Reports(Reported),
    /// A run is over, and its sums are told, with the counts of its project.
    Sums(Reported, Counts),
    /// A serving is over.
    Serves(ServiceEnd),
    /// A search for gateways is over.
    Finds(SearchEnd),
    /// Giving an address is over.
    Assigns(AssignEnd),
}

impl End {
    /// The end of a command that tells a text, or stops.
    pub fn told(answer: Result<Octets, Stop>) -> End
        ensures { result ≡ end_told answer }
    {
        match answer {
            Ok(text) => End::Tells(text),
            Err(why) => End::Stops(why),
        }
    }

    /// The report of the run, where one was begun.
    pub fn report(self) -> Option<Report>
        ensures { result ≡ report_in self }
    {
        match self {
            End::BreaksOff(report, _) => Some(report),
            End::Reports(reported) | End::Sums(reported, _) => Some(reported.report),
            End::Stops(_)
            | End::Tells(_)
            | End::NotOpened
            | End::Serves(_)
            | End::Finds(_)
            | End::Assigns(_) => None,
        }
    }
}

/// A text to write, and the status that goes with it.
#[derive(Drop)]
pub struct Text {
    status: Status,
    octets: Octets,
}

/// What is printed where a call stops.
fn text_of_stop(alloc: Global, stop: &Stop) -> Result<Text, NoMemory>
    ensures { IfOk result (λ p. IsTextOf (End.Stops stop.now) p.octets p.status) }
{
    let status = stop_status(stop);
    let octets = stop_text(alloc, stop)?;
    Ok(Text { status, octets })
}

/// What is printed of a run.
fn text_of_report(alloc: Global, reported: &Reported) -> Result<Text, NoMemory>
    ensures { IfOk result (λ p. IsTextOf (End.Reports reported.now) p.octets p.status) }
{
    let octets = line_report_of(
        alloc,
        &reported.report,
        reported.jobs.as_slice(),
        reported.turns,
        reported.devices.as_slice(),
        reported.log,
    )?;
    Ok(Text {
        status: line_status(&reported.report),
        octets,
    })
}

/// What is printed of the sums of a run.
fn text_of_sums(alloc: Global, reported: &Reported, counts: Counts) -> Result<Text, NoMemory>
    ensures { IfOk result (λ p. IsTextOf (End.Sums reported.now counts) p.octets p.status) }
{
    let report = &reported.report;
    let octets = sums_text(alloc, report, counts, reported.devices.as_slice())?;
    let status = line_status(report);
    Ok(Text { status, octets })
}

/// What is printed of a search.
fn text_of_search(alloc: Global, end: &SearchEnd) -> Result<Text, NoMemory>
    ensures { IfOk result (λ p. IsTextOf (End.Finds end.now) p.octets p.status) }
{
    let octets = search_text(alloc, end)?;
    let status = search_status(end);
    Ok(Text { status, octets })
}

/// What is printed of giving an address.
fn text_of_assignment(alloc: Global, end: &AssignEnd) -> Result<Text, NoMemory>
    ensures { IfOk result (λ p. IsTextOf (End.Assigns end.now) p.octets p.status) }
{
    let octets = assign_text(alloc, end)?;
    let status = assign_status(end);
    Ok(Text { status, octets })
}

/// The line `open after N turns`.
fn open_text(alloc: Global, turns: u32) -> Result<Octets, NoMemory>
    ensures { IfOk result (λ text. text ≡ open_line turns) }
{
    let mut out = Octets::new(alloc);
    out.append(b"open after")?;
    put_number_word(alloc, &mut out, u64::from(turns))?;
    put_word(&mut out, b"turns")?;
    out.push(b'\n')?;
    Ok(out)
}

/// What is printed where all turns were used.
fn text_of_turns(alloc: Global, turns: u32) -> Result<Text, NoMemory>
    ensures { IfOk result (λ p. IsTextOf (End.Serves (ServiceEnd.OpenTurns turns)) p.octets p.status) }
{
    let octets = open_text(alloc, turns)?;
    let status = Status::OpenTurns;
    Ok(Text { status, octets })
}

/// Writes a text, and answers its status unless the write fails.
pub fn tell<K: Sink>(out: &mut K, text: &[u8], status: Status) -> Status
    ensures told { Writes text.now status (K.now out.old) (K.now out.new) result }
    ensures written { (K.now out.new).writes ≡ one_more (K.now out.old).writes }
{
    match out.write(text) {
        Ok(()) => status,
        Err(_) => Status::Write,
    }
}

/// Writes a text, or that there was no memory for it.
fn tell_or_want<K: Sink>(out: &mut K, text: Result<Text, NoMemory>) -> Status
    ensures told { IfOk text (λ p. Writes p.octets p.status (K.now out.old) (K.now out.new) result) }
    ensures wanting { IfErr text (λ _. Writes (stop_text (OutOfMemory tt)) (Status.NoMemory tt) (K.now out.old) (K.now out.new) result) }
    ensures written { (K.now out.new).writes ≡ one_more (K.now out.old).writes }
{
    match text {
        Ok(text) => tell(out, text.octets.as_slice(), text.status),
        Err(want) => tell(out, NO_MEMORY, Status::NoMemory(want)),
    }
}

/// Writes what is printed of a serving.
fn tell_service<K: Sink>(alloc: Global, out: &mut K, end: &ServiceEnd) -> Status
    ensures told { RepliesOf (K.now out.old) (K.now out.new) result (End.Serves end.now) }
    ensures written { (K.now out.new).writes ≡ one_more (K.now out.old).writes }
{
    match end {
        ServiceEnd::Ended => tell(out, ENDED, Status::Done),
        ServiceEnd::OpenTurns(turns) => tell_or_want(out, text_of_turns(alloc, *turns)),
        ServiceEnd::Failed => tell(out, LINK_FAULT, Status::Link),
        ServiceEnd::Unserved(want) => tell(out, NO_MEMORY, Status::NoMemory(*want)),
    }
}

/// Writes what is printed of an end, or that there was no memory for it, and answers the status of that unless the write fails.
pub fn tell_end<K: Sink>(alloc: Global, out: &mut K, end: &End) -> Status
    ensures told { RepliesOf (K.now out.old) (K.now out.new) result end.now }
    ensures written { (K.now out.new).writes ≡ one_more (K.now out.old).writes }
{
    match end {
        End::Stops(stop) => tell_or_want(out, text_of_stop(alloc, stop)),
        End::Tells(text) => tell(out, text.as_slice(), Status::Done),
        End::NotOpened => tell(out, LINK_FAULT, Status::Link),
        End::BreaksOff(_, want) => tell(out, NO_MEMORY, Status::NoMemory(*want)),
        End::Reports(reported) => tell_or_want(out, text_of_report(alloc, reported)),
        End::Sums(reported, counts) => tell_or_want(out, text_of_sums(alloc, reported, *counts)),
        End::Serves(end) => tell_service(alloc, out, end),
        End::Finds(end) => tell_or_want(out, text_of_search(alloc, end)),
        End::Assigns(end) => tell_or_want(out, text_of_assignment(alloc, end)),
    }
}
