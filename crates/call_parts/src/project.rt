//! A command of one project: its names, what it reads; and a catalogue, a project and a script are read and checked.

ghost use Rattle.std.specs.Prelude.{◌≡◌, ◌≢◌, ◌≤◌, ◌+◌, ℕ, [], IfOk, IsNone, IsSome, List, length, map, string_bytes, unwrap_or};
ghost use Rattle.std.specs.Option.{option_map};
ghost use Rattle.call_words.specs.declared.input_file.InputFile.TheVariants.{Script as OfScript};
ghost use Rattle.call_words.specs.declared.stop.Stop.TheVariants.{CatalogueRefused, NoMemory, Refused as Refuses};
ghost use Rattle.knx_model.specs.declared.refusal.Why.TheVariants.{NoMemory as WithoutMemory};
ghost use Rattle.knx_model.specs.ScriptText.{script_reading};
ghost use Rattle.knx_model.specs.Statements.{reading};
ghost use Rattle.call_parts.specs.Input.{OnlyRose, fault_told};
ghost use Rattle.call_parts.specs.Judged.{Gives, models_of, read_of, sound, unless_refused};
ghost use Rattle.call_parts.specs.Names.{named};
ghost use Rattle.call_parts.specs.Stops.{unknown_job};
ghost use Rattle.call_parts.specs.Project.{ProjectIsRead, failed_of_project, files_of_project, installation_of, project_of, project_words, project_words_of};

use crate::input::{Reading, read_after, read_named};
use crate::options::project_options;
use call_words::{InputFile, Stop};
use catalogue::read_catalogue;
use knx_model::{
    CatRefused, Catalogue, FileFault, Files, NoMemory as OutOfMemory, Octets, Refused, Why,
};
use project_check::{Checked, check_in_threads};
use project_text::{Project, read_project_in_threads};
use script_text::{Script, read_script};
use std::alloc::Global;
use std::thread::Threads;

/// The names in `P [catalogue=F]`.
#[derive(Clone, Copy)]
pub struct ProjectNames<'a> {
    pub project: &'a str,
    pub catalogue: Option<&'a str>,
}

/// The texts of `check`, `tables`, `migrate` and `download`.
#[derive(Drop)]
pub struct ProjectTexts {
    pub catalogue: Reading,
    pub project: Reading,
}

/// The names of a command of one project.
pub fn project_names(words: &[String]) -> Option<ProjectNames<'_>>
    ensures { option_map project_words_of result ≡ project_words (map string_bytes words.now) }
{
    let [project, others @ ..] = words else {
        return None;
    };
    let options = project_options(others)?;
    Some(ProjectNames {
        project: project.as_str(),
        catalogue: options.catalogue(),
    })
}

/// Reads the catalogue, then the project.
pub fn read_project_texts<F: Files>(
    alloc: Global,
    files: &mut F,
    names: ProjectNames<'_>,
) -> ProjectTexts
    ensures read { ProjectIsRead (F.now files.old).file (project_words_of names.entry) result }
    ensures counts { OnlyRose (failed_of_project (project_words_of names.entry) result) (F.now files.old).faults (F.now files.new).faults }
    ensures stays { (other : List ℕ) → (F.now files.new).file other ≡ (F.now files.old).file other }
    ensures reads { (F.now files.new).reads ≤ (F.now files.old).reads + length (files_of_project (project_words_of names.entry)) }
{
    let catalogue = read_named(alloc, files, names.catalogue);
    let project = read_after(alloc, files, &catalogue, names.project);
    ProjectTexts { catalogue, project }
}

/// A job names a device that the project hasn't.
pub fn unknown_job() -> Stop
    ensures { result ≡ unknown_job }
{
    let why = Why::NoDevice;
    Stop::Refused(InputFile::New, Refused { line: 0, why })
}

/// Why the call stops at a file of this name that couldn't be read.
fn fault_told(alloc: Global, name: &str, fault: FileFault) -> Result<Stop, OutOfMemory>
    ensures { IfOk result (λ why. why ≡ fault_told name.now fault) }
{
    let name = Octets::from_slice(alloc, name.as_bytes())?;
    match fault {
        FileFault::NotThere => Ok(Stop::NotThere(name)),
        FileFault::Failed => Ok(Stop::ReadFailed(name)),
        FileFault::NoMemory(want) => Ok(Stop::NoMemory(want)),
    }
}

/// The name of a file that is named.
fn name_or_empty(name: Option<&str>) -> &str
    ensures { result.now ≡ unwrap_or (named name.entry) [] }
{
    match name {
        Some(name) => name,
        None => "",
    }
}

/// The octets of a file, or why the call stops.
pub fn read_of<'a>(
    alloc: Global,
    name: Option<&str>,
    reading: &'a Reading,
) -> Result<&'a [u8], Stop>
    ensures { Gives (λ x. x.now) result (read_of (named name.entry) reading.now) }
{
    match reading {
        Reading::Unnamed | Reading::Unread => Ok(&[]),
        Reading::Whole(octets) => Ok(octets.as_slice()),
        Reading::Fault(fault) => Err(fault_told(alloc, name_or_empty(name), *fault)?),
    }
}

/// The want of memory, where a catalogue is refused for it.
fn wanted_for_catalogue(refused: &CatRefused) -> Option<OutOfMemory>
    ensures some { IsSome result → refused.now ≡ CatRefused.NoMemory tt }
    ensures none { IsNone result → refused.now ≢ CatRefused.NoMemory tt }
{
    match refused {
        CatRefused::NoMemory(want) => Some(*want),
        _ => None,
    }
}

/// Why the call stops at a refused catalogue.
fn catalogue_refusal(refused: CatRefused) -> Stop
    ensures memory { refused ≡ CatRefused.NoMemory tt → result ≡ NoMemory tt }
    ensures other { refused ≢ CatRefused.NoMemory tt → result ≡ CatalogueRefused refused }
{
    match wanted_for_catalogue(&refused) {
        Some(want) => Stop::NoMemory(want),
        None => Stop::CatalogueRefused(refused),
    }
}

/// The models of the catalogue; none where no catalogue is named.
pub fn models_in(alloc: Global, catalogue: &Reading) -> Result<Catalogue, Stop>
    ensures { Gives (λ x. x) result (models_of catalogue.now) }
{
    let Reading::Whole(octets) = catalogue else {
        return Ok(Catalogue::empty(alloc));
    };
    match read_catalogue(alloc, octets.as_slice()) {
        Ok(catalogue) => Ok(catalogue),
        Err(refused) => Err(catalogue_refusal(refused)),
    }
}

/// The want of memory, where a text is refused for it.
fn wanted_for_text(why: &Why) -> Option<OutOfMemory>
    ensures some { IsSome result → why.now ≡ WithoutMemory tt }
    ensures none { IsNone result → why.now ≢ WithoutMemory tt }
{
    match why {
        Why::NoMemory(want) => Some(*want),
        _ => None,
    }
}

/// Why the call stops at a refused text.
pub fn refusal(place: InputFile, refused: Refused) -> Stop
    ensures memory { refused.why ≡ WithoutMemory tt → result ≡ NoMemory tt }
    ensures other { refused.why ≢ WithoutMemory tt → result ≡ Refuses place refused }
{
    match wanted_for_text(&refused.why) {
        Some(want) => Stop::NoMemory(want),
        None => Stop::Refused(place, refused),
    }
}

/// The project that a text reads as.
pub fn project_in<'a, R: Threads + Sync>(
    rt: &R,
    alloc: Global,
    place: InputFile,
    octets: &'a [u8],
) -> Result<Project<'a>, Stop>
    ensures { Gives (λ p. p.statements) result (unless_refused place (reading octets.now)) }
{
    match read_project_in_threads(rt, alloc, octets) {
        Ok(project) => Ok(project),
        Err(refused) => Err(refusal(place, refused)),
    }
}

/// The project, where it breaks no rule.
pub fn sound_in<'b, 'a, R: Threads + Sync>(
    rt: &R,
    alloc: Global,
    place: InputFile,
    project: &'b Project<'a>,
    catalogue: &'b Catalogue,
) -> Result<Checked<'b, 'a>, Stop>
    ensures { Gives (λ c. c) result (sound place (record { statements = project.now.statements; catalogue = catalogue.now })) }
{
    match check_in_threads(rt, alloc, project, catalogue) {
        Ok(checked) => Ok(checked),
        Err(refused) => Err(refusal(place, refused)),
    }
}

/// A script, where it reads.
pub fn script_in(alloc: Global, octets: &[u8]) -> Result<Script, Stop>
    ensures { Gives (λ s. s.lines) result (unless_refused OfScript (script_reading octets.now)) }
{
    match read_script(alloc, octets) {
        Ok(script) => Ok(script),
        Err(refused) => Err(refusal(InputFile::Script, refused)),
    }
}

/// A project that was read, with the models of its catalogue.
#[derive(Drop)]
pub struct ReadProject<'a> {
    pub project: Project<'a>,
    pub models: Catalogue,
}

/// The catalogue and the project of `check`, `tables`, `migrate` and `download` are read.
pub fn read_in<'a, R: Threads + Sync>(
    rt: &R,
    alloc: Global,
    names: ProjectNames<'_>,
    texts: &'a ProjectTexts,
) -> Result<ReadProject<'a>, Stop>
    ensures { Gives installation_of result (project_of (project_words_of names.entry) texts.now) }
{
    read_of(alloc, names.catalogue, &texts.catalogue)?;
    let project = read_of(alloc, Some(names.project), &texts.project)?;
    let models = models_in(alloc, &texts.catalogue)?;
    let project = project_in(rt, alloc, InputFile::New, project)?;
    Ok(ReadProject { project, models })
}
