//! `check P [catalogue=F]`: the counts of a project.

ghost use Rattle.std.specs.Prelude.{◌≡◌, ◌≤◌, ◌+◌, ℕ, List, length};
ghost use Rattle.call_parts.specs.Ending.{Is, Replies, TellsOf, end_told};
ghost use Rattle.knx_top.specs.commands.check.{IsCountsText};
ghost use Rattle.call_parts.specs.Project.{ProjectWords, TellsOfProject, files_of_project, judged_project, project_told, project_words_of};
ghost use Rattle.knx_model.specs.Outside.{FilesNow, SinkNow};
ghost use Rattle.knx_top.specs.Complete.{IsToldWhole, IsValid, NoneRose, texts_told};
ghost use Rattle.call_words.specs.declared.status.Status.{Status};

use call_parts::{End, ProjectNames, ProjectTexts, read_in, read_project_texts, sound_in};
use call_words::{InputFile, Stop};
use knx_model::{Files, Octets};
use report_text::counts_text;
use std::alloc::Global;
use std::thread::Threads;

/// The counts of what was read.
fn told<R: Threads + Sync>(
    rt: &R,
    alloc: Global,
    names: ProjectNames<'_>,
    texts: &ProjectTexts,
) -> Result<Octets, Stop>
    ensures { TellsOf IsCountsText (judged_project (project_words_of names.entry) texts.now) (end_told result) }
{
    let read = read_in(rt, alloc, names, texts)?;
    let checked = sound_in(rt, alloc, InputFile::New, &read.project, &read.models)?;
    let text = counts_text(alloc, checked.counts())?;
    Ok(text)
}

/// A call of `check`.
pub fn call<R: Threads + Sync, F: Files>(
    rt: &R,
    alloc: Global,
    names: ProjectNames<'_>,
    files: &mut F,
) -> End
    ensures told { TellsOfProject IsCountsText (project_words_of names.entry) (F.now files.old) (F.now files.new) (Is result) }
    ensures stays { (other : List ℕ) → (F.now files.new).file other ≡ (F.now files.old).file other }
    ensures reads { (F.now files.new).reads ≤ (F.now files.old).reads + length (files_of_project (project_words_of names.entry)) }
{
    let texts = read_project_texts(alloc, files, names);
    End::told(told(rt, alloc, names, &texts))
}

/// Where the files of the words are told, no test fails and no count rose, the whole text is written with status 0, or there was no memory.
pub fn valid_input_is_told()
    ensures { (words : ProjectWords) (files files' : FilesNow) (out out' : SinkNow) (ending : Status) → IsValid files.file words → NoneRose files files' out out' → TellsOfProject IsCountsText words files files' (Replies out out' ending) → IsToldWhole (IsCountsText (project_told (texts_told files.file words))) out out' ending }
{}
