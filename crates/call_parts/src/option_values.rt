//! The values behind the fronts of options and jobs.

ghost use Rattle.std.specs.Prelude.{◌≡◌, ◌≤◌, [], IfSome, length};
ghost use Rattle.std.specs.Option.{option_map};
ghost use Rattle.call_parts.specs.OptionValues.{from_1_to, most_jobs, most_workers, usual_workers, with_job};

use arrayvec::ArrayVec;
use call_words::{JobKind, JobWord};
use knx_model::{ind_of, number_of};
use std::marker::Model;

/// The most jobs that words name.
const MOST_JOBS: usize = 1024;

/// The most downloaders that work at once.
const MOST_WORKERS: u32 = 8;

/// How many downloaders work at once: 1 to 8.
#[derive(Drop)]
pub struct Workers {
    count: u8,
}

impl Model for Workers {
    ghost use Rattle.std.specs.Prelude.{ℕ, ◌≤◌};
    ghost use Rattle.call_parts.specs.OptionValues.{most_workers};

    ghost Value = { ℕ };

    ghost view = { λ w. w.count };

    ghost invariant = { λ w. (1 ≤ w.count) × (w.count ≤ most_workers) };
}

/// The number that a word is, from 1 up to this one; none for another word.
pub fn from_1_to(most: u32, word: &str) -> Option<u32>
    ensures value { result ≡ from_1_to most word.now }
    ensures some { IfSome result (λ n. 1 ≤ n) }
    ensures few { IfSome result (λ n. n ≤ most) }
{
    match number_of(word) {
        Some(number) if 1 <= number && number <= most => Some(number),
        _ => None,
    }
}

impl Workers {
    /// Those of a run whose words name no number.
    pub(crate) fn usual() -> Workers
        ensures { result ≡ usual_workers }
    {
        Workers { count: 4 }
    }

    /// The number that a word is; none for another word.
    pub(crate) fn of(word: &str) -> Option<Workers>
        ensures { result ≡ from_1_to most_workers word.now }
    {
        let count = from_1_to(MOST_WORKERS, word)?;
        Some(Workers { count: count as u8 })
    }

    /// As many.
    pub(crate) fn copied(&self) -> Workers
        ensures { result ≡ self.now }
    {
        Workers { count: self.count }
    }

    /// How many they are.
    pub fn count(self) -> u8
        ensures value { result ≡ self }
        ensures some { 1 ≤ result }
        ensures few { result ≤ most_workers }
    {
        self.count
    }
}

/// The name of a file, borrowed from the words; a contract sees its octets.
#[derive(Drop)]
pub struct FileName<'a> {
    name: &'a str,
}

impl<'a> Model for FileName<'a> {
    ghost use Rattle.std.specs.Prelude.{List, ℕ};

    ghost Value = { List ℕ };

    ghost view = { λ n. n.name.now };
}

impl<'a> FileName<'a> {
    /// The name that a word tells.
    pub(crate) fn of(word: &'a str) -> FileName<'a>
        ensures { result ≡ word.now }
    {
        FileName { name: word }
    }

    /// The name.
    pub fn as_str(&self) -> &'a str
        ensures { result.now ≡ self.now }
    {
        self.name
    }
}

/// The jobs that words name, in the order of the words; a contract sees the list of them. They take no memory.
#[derive(Drop)]
pub struct JobWords {
    jobs: ArrayVec<JobWord, MOST_JOBS>,
}

impl Model for JobWords {
    ghost use Rattle.std.specs.Prelude.{List};
    ghost use Rattle.call_words.specs.declared.job_word.JobWord.{JobWord as Named};

    ghost Value = { List Named };

    ghost view = { λ j. j.jobs.items };
}

impl Default for JobWords {
    ghost is_default = { λ jobs. jobs ≡ [] };

    fn default() -> JobWords {
        JobWords {
            jobs: ArrayVec::new(),
        }
    }
}

impl JobWords {
    /// The jobs.
    pub fn as_slice(&self) -> &[JobWord]
        ensures value { result.now ≡ self.now }
        ensures few { length result.now ≤ most_jobs }
    {
        self.jobs.as_slice()
    }

    /// Takes a job of the device that has the address, where there aren't too many.
    pub(crate) fn take(&mut self, kind: JobKind, address: &str) -> Option<()>
        ensures { option_map (λ _. self.new) result ≡ with_job kind self.old address.now }
    {
        let device = ind_of(address)?;
        if self.jobs.is_full() {
            return None;
        }
        self.jobs.push(JobWord { device, kind });
        Some(())
    }
}
