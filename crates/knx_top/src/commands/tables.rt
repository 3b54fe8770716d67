//! `tables P [catalogue=F]`: the tables of a project's devices.

ghost use Rattle.std.specs.Prelude.{◌≡◌, ◌≤◌, ◌+◌, ℕ, IfOk, List, length};
ghost use Rattle.call_parts.specs.Ending.{Is, Replies, TellsOf, end_told};
ghost use Rattle.call_parts.specs.Project.{ProjectWords, TellsOfProject, files_of_project, judged_project, project_told, project_words_of};
ghost use Rattle.knx_top.specs.commands.tables.{IsTablesText};
ghost use Rattle.knx_model.specs.Outside.{FilesNow, SinkNow};
ghost use Rattle.knx_top.specs.Complete.{IsToldWhole, IsValid, NoneRose, texts_told};
ghost use Rattle.call_words.specs.declared.status.Status.{Status};

use call_parts::{End, ProjectNames, ProjectTexts, read_in, read_project_texts, sound_in};
use call_words::{InputFile, Stop};
use knx_model::{Files, NoMemory, Octets};
use project_check::Checked;
use std::alloc::Global;
use std::thread::Threads;
use table_compiler::compile_all;

/// The tables of the devices of a project, ascending.
fn tables_text<R: Threads + Sync>(
    rt: &R,
    alloc: Global,
    checked: &Checked<'_, '_>,
) -> Result<Octets, NoMemory>
    ensures { IfOk result (λ text. IsTablesText checked.now text) }
{
    let images = compile_all(rt, alloc, checked)?;
    let text = report_text::tables_text(rt, alloc, checked.devices(), images.as_slice())?;
    Ok(text)
}

/// The tables of what was read.
fn told<R: Threads + Sync>(
    rt: &R,
    alloc: Global,
    names: ProjectNames<'_>,
    texts: &ProjectTexts,
) -> Result<Octets, Stop>
    ensures { TellsOf IsTablesText (judged_project (project_words_of names.entry) texts.now) (end_told result) }
{
    let read = read_in(rt, alloc, names, texts)?;
    let checked = sound_in(rt, alloc, InputFile::New, &read.project, &read.models)?;
    let text = tables_text(rt, alloc, &checked)?;
    Ok(text)
}

/// A call of `tables`.
pub fn call<R: Threads + Sync, F: Files>(
    rt: &R,
    alloc: Global,
    names: ProjectNames<'_>,
    files: &mut F,
) -> End
    ensures told { TellsOfProject IsTablesText (project_words_of names.entry) (F.now files.old) (F.now files.new) (Is result) }
    ensures stays { (other : List ℕ) → (F.now files.new).file other ≡ (F.now files.old).file other }
    ensures reads { (F.now files.new).reads ≤ (F.now files.old).reads + length (files_of_project (project_words_of names.entry)) }
{
    let texts = read_project_texts(alloc, files, names);
    End::told(told(rt, alloc, names, &texts))
}

/// Where the files of the words are told, no test fails and no count rose, the whole text is written with status 0, or there was no memory.
pub fn valid_input_is_told()
    ensures { (words : ProjectWords) (files files' : FilesNow) (out out' : SinkNow) (ending : Status) → IsValid files.file words → NoneRose files files' out out' → TellsOfProject IsTablesText words files files' (Replies out out' ending) → IsToldWhole (IsTablesText (project_told (texts_told files.file words))) out out' ending }
{}
