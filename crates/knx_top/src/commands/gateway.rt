//! `gateway ADDR OLD SCRIPT turns=N [catalogue=F]`: the simulated line served at a port, which is handed back to the dialer before the call answers.

ghost use Rattle.std.specs.Prelude.{◌≡◌, ◌≢◌, ◌≤◌, ◌+◌, ℕ, Err, IfErr, IfOk, List, None, length, map, string_bytes};
ghost use Rattle.std.specs.Option.{option_map};
ghost use Rattle.call_words.specs.declared.stop.Stop.TheVariants.{NoMemory as OutOfMemory};
ghost use Rattle.line_model.specs.Polled.{none_failed};
ghost use Rattle.line_model.specs.PortStory.{IsNewPort};
ghost use Rattle.call_parts.specs.Ending.{Is, Replies, report_in};
ghost use Rattle.call_parts.specs.Input.{OnlyRose};
ghost use Rattle.call_parts.specs.Names.{address_of};
ghost use Rattle.knx_top.specs.commands.gateway.{GatewayIsRead, GatewayWords, IsLineOf, LineFor, RunsGateway, Serves, ServesOr, Service, Serving, end_of_fault, end_of_serving, failed_of_gateway, files_of_gateway, gateway_told, gateway_words, gateway_words_of, judged_gateway, turns_value, unless_failed, with_lines};
ghost use Rattle.bus_sim.specs.Loaded.{BusNow};
ghost use Rattle.line_model.specs.Dialled.{DialerNow};
ghost use Rattle.knx_model.specs.Outside.{FilesNow, SinkNow};
ghost use Rattle.knx_top.specs.Complete.{IsGatewayTold, IsValidGateway, NoneRose, gateway_texts_told};
ghost use Rattle.call_words.specs.declared.status.Status.{Status};

use crate::line::{line_begun, tunnel_address};
use bus_sim::{Served, SimBus};
use call_parts::{
    End, GatewayAddress, Reading, ServiceEnd, about_gateway, address_in, behind, from_1_to,
    models_in, own_endpoint, project_in, project_options, read_after, read_named, read_of,
    script_in, sound_in,
};
use call_words::{InputFile, Stop};
use discovery_ends::Answerer;
use knx_model::{Files, IndAddr};
use line_model::{Dialer, PortFault};
use project_check::Checked;
use script_text::Script;
use std::alloc::Global;
use std::thread::Threads;

/// The most turns that a gateway serves.
const MOST_TURNS: u32 = 1_000_000_000;

/// The port and the names in `ADDR OLD SCRIPT turns=N [catalogue=F]`.
#[derive(Clone, Copy)]
pub struct GatewayNames<'a> {
    pub at: GatewayAddress,
    pub old: &'a str,
    pub script: &'a str,
    pub turns: u32,
    pub catalogue: Option<&'a str>,
}

/// The texts of `gateway`.
#[derive(Drop)]
pub struct GatewayTexts {
    pub catalogue: Reading,
    pub old: Reading,
    pub script: Reading,
}

/// The number in `turns=N`.
fn turns_in(word: &str) -> Option<u32>
    ensures { result ≡ turns_value word.now }
{
    from_1_to(MOST_TURNS, behind("turns=", word)?)
}

/// The names of `gateway`.
pub fn gateway_names(words: &[String]) -> Option<GatewayNames<'_>>
    ensures { option_map gateway_words_of result ≡ gateway_words (map string_bytes words.now) }
{
    let [address, old, script, number, others @ ..] = words else {
        return None;
    };
    let at = address_in(address.as_str())?;
    let turns = turns_in(number.as_str())?;
    let options = project_options(others)?;
    Some(GatewayNames {
        at,
        old: old.as_str(),
        script: script.as_str(),
        turns,
        catalogue: options.catalogue(),
    })
}

/// Reads the catalogue, then OLD and the script.
fn read_gateway_texts<F: Files>(
    alloc: Global,
    files: &mut F,
    names: GatewayNames<'_>,
) -> GatewayTexts
    ensures read { GatewayIsRead (F.now files.old).file (gateway_words_of names.entry) result }
    ensures counts { OnlyRose (failed_of_gateway (gateway_words_of names.entry) result) (F.now files.old).faults (F.now files.new).faults }
    ensures stays { (other : List ℕ) → (F.now files.new).file other ≡ (F.now files.old).file other }
    ensures reads { (F.now files.new).reads ≤ (F.now files.old).reads + length (files_of_gateway (gateway_words_of names.entry)) }
{
    let catalogue = read_named(alloc, files, names.catalogue);
    let old = read_after(alloc, files, &catalogue, names.old);
    let script = read_after(alloc, files, &old, names.script);
    GatewayTexts {
        catalogue,
        old,
        script,
    }
}

/// A line that can be served, and its tunnel's address.
#[derive(Drop)]
pub struct Ready {
    pub line: SimBus,
    pub tunnel: IndAddr,
}

/// The last test, of the devices that a script names, and the line that begins.
fn judge_script<R: Threads + Sync>(
    rt: &R,
    alloc: Global,
    names: GatewayNames<'_>,
    old: &Checked<'_, '_>,
    script: &Script,
) -> Result<Ready, Stop>
    ensures ok { IfOk result (λ ready. LineFor (with_lines (gateway_words_of names.entry) old.now script.now.lines) ready) }
    ensures err { IfErr result (λ why. why ≢ OutOfMemory tt → with_lines (gateway_words_of names.entry) old.now script.now.lines ≡ Err why) }
{
    let line = line_begun(rt, alloc, old, &*old, script)?;
    let tunnel = tunnel_address(old);
    Ok(Ready { line, tunnel })
}

/// What was read is judged in order: the catalogue, OLD, then the script and its devices.
fn judge<R: Threads + Sync>(
    rt: &R,
    alloc: Global,
    names: GatewayNames<'_>,
    texts: &GatewayTexts,
) -> Result<Ready, Stop>
    ensures ok { IfOk result (λ ready. LineFor (judged_gateway (gateway_words_of names.entry) texts.now) ready) }
    ensures err { IfErr result (λ why. why ≢ OutOfMemory tt → judged_gateway (gateway_words_of names.entry) texts.now ≡ Err why) }
{
    read_of(alloc, names.catalogue, &texts.catalogue)?;
    let old = read_of(alloc, Some(names.old), &texts.old)?;
    let script = read_of(alloc, Some(names.script), &texts.script)?;
    let models = models_in(alloc, &texts.catalogue)?;
    let old = project_in(rt, alloc, InputFile::Old, old)?;
    let old = sound_in(rt, alloc, InputFile::Old, &old, &models)?;
    let script = script_in(alloc, script)?;
    let ready = judge_script(rt, alloc, names, &old, &script)?;
    Ok(ready)
}

/// A serving in which an answer failed broke off so, if not otherwise.
fn unless_failed(
    failed: Option<PortFault>,
    served: Result<Served, PortFault>,
) -> Result<Served, PortFault>
    ensures { result ≡ unless_failed failed served }
{
    let served = served?;
    match failed {
        Some(fault) => Err(fault),
        None => Ok(served),
    }
}

/// The end of a serving that broke off so.
fn end_of_fault(fault: PortFault) -> ServiceEnd
    ensures { result ≡ end_of_fault fault }
{
    match fault {
        PortFault::Failed => ServiceEnd::Failed,
        PortFault::NoMemory(want) => ServiceEnd::Unserved(want),
    }
}

/// The end of a serving of at most so many turns.
fn end_of_serving(turns: u32, served: Result<Served, PortFault>) -> ServiceEnd
    ensures { result ≡ end_of_serving turns served }
{
    match served {
        Ok(Served::Ended) => ServiceEnd::Ended,
        Ok(Served::OpenTurns) => ServiceEnd::OpenTurns(turns),
        Err(fault) => end_of_fault(fault),
    }
}

/// Serves a line at a port that was bound, where its gateway tells of itself, and hands the port back. The line is then the simulated one.
fn serve<D: Dialer>(
    alloc: Global,
    names: GatewayNames<'_>,
    ready: Ready,
    door: D::P,
    sim: &mut SimBus,
    dial: &mut D,
) -> ServiceEnd
    requires new { IsNewPort (D.P.story door) }
    requires unfailed { D.P.faults door ≡ 0 }
    requires sound { ready.line.faults ≡ none_failed }
    ensures serving { (s : Service) → IsLineOf s ready → s.at ≡ address_of names.entry.at → s.turns ≡ names.entry.turns → Serving s sim.new (D.now dial.new).port_back (D.now dial.old).counts (D.now dial.new).counts result }
    ensures given { (D.now dial.new).given ≡ (D.now dial.old).given }
    ensures dials { (D.now dial.new).dials ≡ (D.now dial.old).dials }
{
    let Ready { line, tunnel } = ready;
    let mut line = line;
    let mut door = Answerer::new(door, own_endpoint(names.at), about_gateway(tunnel));
    let served = line.serve(alloc, &mut door, names.turns);
    let ended = unless_failed(door.failed(), served);
    line.keeps();
    dial.shut(door.back());
    *sim = line;
    end_of_serving(names.turns, ended)
}

/// Binds the port, and serves a line there.
fn bind_and_serve<D: Dialer>(
    alloc: Global,
    names: GatewayNames<'_>,
    ready: Ready,
    sim: &mut SimBus,
    dial: &mut D,
) -> End
    requires sound { ready.line.faults ≡ none_failed }
    ensures { (s : Service) → IsLineOf s ready → s.at ≡ address_of names.entry.at → s.turns ≡ names.entry.turns → Serves s (D.now dial.old) (D.now dial.new) sim.old sim.new result }
{
    match dial.bind(names.at.host, names.at.port) {
        Ok(door) => End::Serves(serve(alloc, names, ready, door, sim, dial)),
        Err(_) => End::NotOpened,
    }
}

/// Judges what was read, and serves what it asks for.
fn gateway<R: Threads + Sync, D: Dialer>(
    rt: &R,
    alloc: Global,
    names: GatewayNames<'_>,
    texts: &GatewayTexts,
    sim: &mut SimBus,
    dial: &mut D,
) -> End
    ensures { ServesOr (judged_gateway (gateway_words_of names.entry) texts.now) (D.now dial.old) (D.now dial.new) sim.old sim.new result }
{
    match judge(rt, alloc, names, texts) {
        Ok(ready) => bind_and_serve(alloc, names, ready, sim, dial),
        Err(why) => End::Stops(why),
    }
}

/// A call of `gateway`.
pub fn call<R: Threads + Sync, F: Files, D: Dialer>(
    rt: &R,
    alloc: Global,
    names: GatewayNames<'_>,
    files: &mut F,
    sim: &mut SimBus,
    dial: &mut D,
) -> End
    ensures told { RunsGateway (gateway_words_of names.entry) (F.now files.old) (F.now files.new) (D.now dial.old) (D.now dial.new) sim.old sim.new (Is result) }
    ensures stays { (other : List ℕ) → (F.now files.new).file other ≡ (F.now files.old).file other }
    ensures reads { (F.now files.new).reads ≤ (F.now files.old).reads + length (files_of_gateway (gateway_words_of names.entry)) }
    ensures no_run { report_in result ≡ None }
{
    let texts = read_gateway_texts(alloc, files, names);
    gateway(rt, alloc, names, &texts, sim, dial)
}

/// Where the files of the words are told, no test fails and no count rose, the port of the words is bound once, and how serving the line there ended is written with its
/// status, or that it couldn't be bound, or there was no memory.
pub fn valid_input_is_told()
    ensures { (words : GatewayWords) (files files' : FilesNow) (before after : DialerNow) (line line' : BusNow) (out out' : SinkNow) (ending : Status) → IsValidGateway files.file words → NoneRose files files' out out'
        → RunsGateway words files files' before after line line' (Replies out out' ending) → IsGatewayTold (gateway_told words (gateway_texts_told files.file words)) before after line' out out' ending }
{}
