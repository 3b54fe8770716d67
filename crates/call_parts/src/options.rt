//! Options and jobs: what stands behind the names of a command's files, in any order.

ghost use Rattle.std.specs.Prelude.{◌≡◌, None, Some, drop, length, map, nat_eq, string_bytes, if◌then◌else◌};
ghost use Rattle.std.specs.List.{starts_with};
ghost use Rattle.std.specs.Option.{option_map};
ghost use Rattle.call_parts.specs.Fronts.{read_by};
ghost use Rattle.call_parts.specs.Names.{named, the_word};
ghost use Rattle.call_parts.specs.Options.{no_options, project_options, project_rows, run_rows, sim_options, workers_of};
ghost use Rattle.call_parts.specs.OptionValues.{alone, once};

use crate::option_values::{FileName, JobWords, Workers};
use call_words::JobKind;

/// `[catalogue=F] [log] [quiet] [workers=N]` and jobs. It takes no memory.
#[derive(Default, Drop)]
pub struct SimOptions<'a> {
    pub catalogue: Option<FileName<'a>>,
    /// Whether the log is printed.
    pub log: bool,
    /// Whether nothing is told of the run before its end.
    pub quiet: bool,
    /// As many as the words name.
    pub workers: Option<Workers>,
    pub jobs: JobWords,
}

/// What stands behind the front of a word; none for a word that doesn't begin with it.
pub fn behind<'a>(front: &str, word: &'a str) -> Option<&'a str>
    ensures { option_map the_word result ≡ (if starts_with nat_eq word.now front.now then Some (drop (length front.now) word.now) else None) }
{
    word.strip_prefix(front)
}

/// Takes a value that was read, where none stands yet.
fn take_once<T: Drop>(place: &mut Option<T>, value: Option<T>) -> Option<()>
    ensures { option_map (λ _. place.new) result ≡ once place.old value }
{
    if place.is_some() {
        return None;
    }
    *place = Some(value?);
    Some(())
}

/// Takes a word with nothing behind it, where it doesn't stand yet.
fn take_alone(place: &mut bool, rest: &str) -> Option<()>
    ensures { option_map (λ _. place.new) result ≡ alone place.old rest.now }
{
    if *place || !rest.is_empty() {
        return None;
    }
    *place = true;
    Some(())
}

impl<'a> SimOptions<'a> {
    /// The name in `catalogue=F`.
    pub fn catalogue(&self) -> Option<&'a str>
        ensures { named result ≡ self.now.catalogue }
    {
        match &self.catalogue {
            Some(file) => Some(file.as_str()),
            None => None,
        }
    }

    /// How many downloaders work at once.
    pub fn workers(&self) -> Workers
        ensures { result ≡ workers_of self.now }
    {
        match &self.workers {
            Some(workers) => workers.copied(),
            None => Workers::usual(),
        }
    }

    /// Before any word.
    pub fn none() -> Self
        ensures { result ≡ no_options }
    {
        SimOptions::default()
    }

    /// Takes one word of a command of one project; none for another word.
    fn take_project_word(&mut self, word: &'a str) -> Option<()>
        ensures { option_map (λ _. self.new) result ≡ read_by (project_rows self.old) word.now }
    {
        if let Some(name) = behind("catalogue=", word) {
            take_once(&mut self.catalogue, Some(FileName::of(name)))
        } else {
            None
        }
    }

    /// Takes one word of a run; none for another word.
    fn take_run_word(&mut self, word: &'a str) -> Option<()>
        ensures { option_map (λ _. self.new) result ≡ read_by (run_rows self.old) word.now }
    {
        if let Some(name) = behind("catalogue=", word) {
            take_once(&mut self.catalogue, Some(FileName::of(name)))
        } else if let Some(rest) = behind("log", word) {
            take_alone(&mut self.log, rest)
        } else if let Some(rest) = behind("quiet", word) {
            take_alone(&mut self.quiet, rest)
        } else if let Some(number) = behind("workers=", word) {
            take_once(&mut self.workers, Workers::of(number))
        } else if let Some(address) = behind("load:", word) {
            self.jobs.take(JobKind::Load, address)
        } else if let Some(address) = behind("check:", word) {
            self.jobs.take(JobKind::Check, address)
        } else {
            None
        }
    }
}

/// What the words of a command of one project say; none for other words.
pub fn project_options(words: &[String]) -> Option<SimOptions<'_>>
    ensures { result ≡ project_options (map string_bytes words.now) }
{
    let mut options = SimOptions::none();
    for word in words {
        options.take_project_word(word.as_str())?;
    }
    Some(options)
}

/// What the words of a run say; none for other words.
pub fn sim_options(words: &[String]) -> Option<SimOptions<'_>>
    ensures { result ≡ sim_options (map string_bytes words.now) }
{
    let mut options = SimOptions::none();
    for word in words {
        options.take_run_word(word.as_str())?;
    }
    Some(options)
}
