//! `assign ADDR IA` and `assign sim UNITS IA`: the one unit in programming mode gets an individual address, over a dialled link, which is handed back to the
//! dialer before the call answers, or over the simulated bus of units.

ghost use Rattle.std.specs.Prelude.{◌≡◌, ◌≢◌, ◌≤◌, ◌+◌, ℕ, [], Err, IfErr, IfOk, List as Seq, Ok};
ghost use Rattle.std.specs.Option.{option_map};
ghost use Rattle.address_text.specs.UnitText.{unit_reading};
ghost use Rattle.call_words.specs.declared.input_file.InputFile.TheVariants.{Script as OfScript};
ghost use Rattle.call_words.specs.declared.stop.Stop.TheVariants.{NoMemory as OutOfMemory};
ghost use Rattle.line_model.specs.LinkStory.{IsNewLink};
ghost use Rattle.line_model.specs.Polled.{none_failed};
ghost use Rattle.call_parts.specs.Ending.{Is};
ghost use Rattle.call_parts.specs.Judged.{Gives as GivesAs, unless_refused};
ghost use Rattle.knx_top.specs.commands.assign.{BeginsAs, GivesOr, GivesOver, GivesSim, RunsAssign, RunsAssignSim, TellsOutcome, Units, assign_sim_words, assign_sim_words_of, assign_words, assign_words_of, judged_units, tunnel_beside};

use address_commission::{Plain, assign};
use address_sim::{
    AddressBus, Unit, UnitScript, a_bus_that_loses_nothing_is_calm,
    a_text_without_losses_loses_nothing, what_stays_is_all_that_it_began_with,
};
use address_text::read_units;
use call_parts::{
    AssignEnd, End, GatewayAddress, Reading, address_in, read_named, read_of, refusal,
};
use call_words::{InputFile, Stop};
use knx_model::{Files, IndAddr, List, NoMemory, ind_of};
use line_model::Dialer;
use std::alloc::Global;
use std::sync::Wait;

/// The device part of a tunnel's address.
const TUNNEL: u16 = 255;

/// The gateway and the address in `ADDR IA`.
#[derive(Clone, Copy)]
pub struct AssignNames {
    pub at: GatewayAddress,
    pub wanted: IndAddr,
}

/// The name and the address in `UNITS IA`.
#[derive(Clone, Copy)]
pub struct AssignSimNames<'a> {
    pub units: &'a str,
    pub wanted: IndAddr,
}

/// The words of `assign`.
pub fn assign_names(address: &str, wanted: &str) -> Option<AssignNames>
    ensures { option_map assign_words_of result ≡ assign_words address.now wanted.now }
{
    let at = address_in(address)?;
    let wanted = ind_of(wanted)?;
    Some(AssignNames { at, wanted })
}

/// The words of `assign sim`.
pub fn assign_sim_names<'a>(units: &'a str, wanted: &str) -> Option<AssignSimNames<'a>>
    ensures { option_map assign_sim_words_of result ≡ assign_sim_words units.now wanted.now }
{
    let wanted = ind_of(wanted)?;
    Some(AssignSimNames { units, wanted })
}

/// Gives the address over a link that was dialled, and hands it back.
fn give_over<R: Wait, D: Dialer>(
    rt: &R,
    alloc: Global,
    wanted: IndAddr,
    link: D::L,
    dial: &mut D,
) -> AssignEnd
    requires new { IsNewLink (D.L.story link) }
    requires sound { D.L.faults link ≡ none_failed }
    ensures tells { TellsOutcome wanted [] (λ came. GivesOver wanted came (D.now dial.old).counts (D.now dial.new).counts (D.now dial.new).link_back) result }
    ensures given { (D.now dial.new).given ≡ (D.now dial.old).given }
    ensures dials { (D.now dial.new).dials ≡ (D.now dial.old).dials }
{
    let (link, came) = assign(rt, Plain::new(link), wanted);
    dial.hang(link.back());
    AssignEnd::of(wanted, came, List::new(alloc))
}

/// A call of `assign`.
pub fn call<R: Wait, D: Dialer>(rt: &R, alloc: Global, names: AssignNames, dial: &mut D) -> End
    ensures { RunsAssign (assign_words_of names) (D.now dial.old) (D.now dial.new) (Is result) }
{
    match dial.dial(names.at.host, names.at.port) {
        Ok(link) => End::Assigns(give_over(rt, alloc, names.wanted, link, dial)),
        Err(_) => End::NotOpened,
    }
}

/// The tunnel's address on the line of an address.
fn tunnel_beside(wanted: IndAddr) -> IndAddr
    ensures { result ≡ tunnel_beside wanted }
{
    IndAddr {
        raw: wanted.raw / 256 * 256 + TUNNEL,
    }
}

/// The units and the losses of a text, where it reads.
fn units_in(alloc: Global, octets: &[u8]) -> Result<UnitScript, Stop>
    ensures { GivesAs (λ s. (s.units, s.losses)) result (unless_refused OfScript (unit_reading octets.now)) }
{
    match read_units(alloc, octets) {
        Ok(script) => Ok(script),
        Err(refused) => Err(refusal(InputFile::Script, refused)),
    }
}

/// The bus that a text begins, on which nothing was done.
fn bus_of(alloc: Global, wanted: IndAddr, text: &UnitScript) -> Result<AddressBus, NoMemory>
    ensures { IfOk result (λ bus. BeginsAs wanted (Ok (text.now.units, text.now.losses)) bus) }
{
    let mut bus = AddressBus::empty(alloc);
    bus.load(tunnel_beside(wanted), text)?;
    Ok(bus)
}

/// What was read is judged, and the bus is begun.
fn judge(alloc: Global, names: AssignSimNames<'_>, reading: &Reading) -> Result<AddressBus, Stop>
    ensures ok { IfOk result (λ bus. BeginsAs names.entry.wanted (judged_units (assign_sim_words_of names.entry) reading.now) bus) }
    ensures err { IfErr result (λ why. why ≢ OutOfMemory tt → judged_units (assign_sim_words_of names.entry) reading.now ≡ Err why) }
{
    let octets = read_of(alloc, Some(names.units), reading)?;
    let text = units_in(alloc, octets)?;
    let bus = bus_of(alloc, names.wanted, &text)?;
    Ok(bus)
}

/// These units, or that there was no memory for them.
fn copied(alloc: Global, units: &[Unit]) -> Result<List<Unit>, NoMemory>
    ensures { IfOk result (λ copy. copy ≡ units.now) }
{
    Ok(List::from_vec(Vec::from_slice(alloc, units)?))
}

/// Gives the address on a bus on which nothing was done.
fn give_on<R: Wait>(
    rt: &R,
    alloc: Global,
    wanted: IndAddr,
    bus: AddressBus,
    units: &mut AddressBus,
) -> End
    requires new { bus.run.events ≡ [] }
    requires sound { bus.faults ≡ none_failed }
    ensures { (text : Units) → BeginsAs wanted (Ok text) bus → GivesSim wanted text units.old units.new result }
{
    what_stays_is_all_that_it_began_with();
    a_bus_that_loses_nothing_is_calm();
    a_text_without_losses_loses_nothing();
    let (bus, came) = assign(rt, bus, wanted);
    bus.keeps();
    *units = bus;
    let now = units.units();
    match copied(alloc, now) {
        Ok(shown) => End::Assigns(AssignEnd::of(wanted, came, shown)),
        Err(want) => End::Assigns(AssignEnd::Untold(want)),
    }
}

/// Judges what was read, and gives the address.
fn judge_and_give<R: Wait>(
    rt: &R,
    alloc: Global,
    names: AssignSimNames<'_>,
    reading: &Reading,
    units: &mut AddressBus,
) -> End
    ensures { GivesOr names.entry.wanted (judged_units (assign_sim_words_of names.entry) reading.now) units.old units.new result }
{
    match judge(alloc, names, reading) {
        Ok(bus) => give_on(rt, alloc, names.wanted, bus, units),
        Err(why) => End::Stops(why),
    }
}

/// A call of `assign sim`.
pub fn call_sim<R: Wait, F: Files>(
    rt: &R,
    alloc: Global,
    names: AssignSimNames<'_>,
    files: &mut F,
    units: &mut AddressBus,
) -> End
    ensures told { RunsAssignSim (assign_sim_words_of names.entry) (F.now files.old) (F.now files.new) units.old units.new (Is result) }
    ensures stays { (other : Seq ℕ) → (F.now files.new).file other ≡ (F.now files.old).file other }
    ensures reads { (F.now files.new).reads ≤ (F.now files.old).reads + 1 }
{
    let reading = read_named(alloc, files, Some(names.units));
    judge_and_give(rt, alloc, names, &reading, units)
}
