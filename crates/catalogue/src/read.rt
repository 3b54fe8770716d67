//! A catalogue is read from octets.

ghost use Rattle.std.specs.Prelude.{◌≡◌, ◌≢◌, ◌↔◌, Some, None, IfOk, IfErr, IsSome, MatchResult};
ghost use Rattle.toml.specs.Errors.{IsMemory};
ghost use Rattle.toml.specs.View.{table_view};
ghost use Rattle.catalogue.specs.Catalogue.{Gives, document_of, catalogue_of};
ghost use Rattle.catalogue.specs.FirstRefusal.{ListsAscending};

use crate::models::models_of;
use knx_model::{CatRefused, Catalogue, LONGEST_TEXT, NoMemory};
use std::alloc::{AllocError, Global};
use toml::Table;

/// Want of memory, where that is why the text wasn't read.
fn memory_of(error: &toml::de::Error) -> Option<NoMemory>
    ensures { IsSome result ↔ IsMemory error.now }
{
    if error.is_memory() {
        // `toml` tells of the refused growth without handing it over
        Some(NoMemory::from(AllocError))
    } else {
        None
    }
}

/// The table of a document.
#[tactic(auto, using(knx_model::proofs::Text::utf8_true, knx_model::proofs::Text::utf8_false))]
fn document_in(alloc: Global, octets: &[u8]) -> Result<Table, CatRefused>
    ensures ok { IfOk result (λ table. document_of octets.now ≡ Some (table_view table)) }
    ensures refused { IfErr result (λ e. e ≢ CatRefused.NoMemory tt → document_of octets.now ≡ None) }
    ensures toml { IfErr result (λ e. e ≢ CatRefused.NoMemory tt → e ≡ CatRefused.Toml) }
{
    let Ok(text) = std::str::from_utf8(octets) else {
        return Err(CatRefused::Toml);
    };
    match toml::table_from_str(alloc, text) {
        Ok(table) => Ok(table),
        Err(error) => match memory_of(&error) {
            Some(want) => Err(CatRefused::NoMemory(want)),
            None => Err(CatRefused::Toml),
        },
    }
}

/// The catalogue that octets are: a TOML document whose keys are the models' names. What is no such document is refused with
/// its first fault: more than 4,194,304 octets, no TOML, or the first model, ascending by the octets of its name, that isn't
/// as it must be; in a model its shape comes first, then its parameters in order, each one's ranges before its overlap.
#[tactic(auto, unfolding(crate::specs::Catalogue::catalogue_of))]
pub fn read_catalogue(alloc: Global, octets: &[u8]) -> Result<Catalogue, CatRefused>
    ensures stated { Gives result (catalogue_of octets.now) }
    // So the first model that isn't as it must be is the least by its name.
    ensures ascending { MatchResult result (λ _. ListsAscending octets.now) (λ why. why ≢ CatRefused.NoMemory tt → why ≢ CatRefused.Long → ListsAscending octets.now) }
{
    if octets.len() > LONGEST_TEXT as usize {
        return Err(CatRefused::Long);
    }
    let table = document_in(alloc, octets)?;
    let models = models_of(alloc, &table)?;
    Ok(Catalogue::of(models))
}
