//! The words of the command line.

ghost use Rattle.std.specs.Prelude.{◌≡◌, ◌↔◌, [], IfErr, IfOk, IsErr, drop};
ghost use Rattle.std.specs.IoError.{error_kind};
ghost use Rattle.std.specs.Vec.Iter.{into_iter_items};

use crate::disk::memory_of;
use knx_model::NoMemory;
use std::alloc::Global;
use std::env::Args;
use std::io::{self, ErrorKind};

/// The arguments without the first, which is the program's name.
fn words_in(alloc: Global, args: Args) -> Result<Vec<String>, NoMemory>
    ensures { IfOk result (λ words. words.items ≡ drop 1 (into_iter_items args)) }
{
    Ok(args.skip(1).collect(alloc)?)
}

/// The words where the arguments couldn't be had: none where one of them isn't text, since that is no command.
fn words_for(alloc: Global, error: &io::Error) -> Result<Vec<String>, NoMemory>
    ensures memory { IsErr result ↔ (error_kind error.now ≡ ErrorKind.OutOfMemory) }
    ensures none { IfOk result (λ words. words.items ≡ []) }
{
    match memory_of(error) {
        Some(want) => Err(want),
        None => Ok(Vec::new(alloc)),
    }
}

/// The words that the program is called with, by what the system answers for its arguments.
pub fn words_of(alloc: Global, args: io::Result<Args>) -> Result<Vec<String>, NoMemory>
    ensures there { IfOk args (λ args. IfOk result (λ words. words.items ≡ drop 1 (into_iter_items args))) }
    ensures memory { IfErr args (λ error. IsErr result ↔ (error_kind error ≡ ErrorKind.OutOfMemory)) }
    ensures none { IfErr args (λ error. IfOk result (λ words. words.items ≡ [])) }
{
    match args {
        Ok(args) => words_in(alloc, args),
        Err(error) => words_for(alloc, &error),
    }
}
