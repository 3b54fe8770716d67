//! The models of a document.

ghost use Rattle.std.specs.Prelude.{◌≡◌, ◌≢◌, string_bytes, IfOk, All};
ghost use Rattle.toml.specs.View.{view, table_view};
ghost use Rattle.knx_model.specs.Models.{IsNamedModel};
ghost use Rattle.catalogue.specs.Catalogue.{Gives, named_model, models_of};
ghost use Rattle.catalogue.specs.FirstRefusal.{NamesAscend};

use crate::fields::fields_of;
use crate::tables::model_in;
use knx_model::{CatRefused, INLINE, List, Model, NamedModel, Octets, is_name_in};
use std::alloc::Global;
use toml::{Table, Value};

/// A model isn't as it must be.
fn shape(alloc: Global, name: &[u8]) -> CatRefused
    ensures { result ≢ CatRefused.NoMemory tt → result ≡ CatRefused.Shape name.now }
{
    match Octets::from_slice(alloc, name) {
        Ok(model) => CatRefused::Shape { model },
        Err(error) => CatRefused::NoMemory(error),
    }
}

/// The model of a name.
#[tactic(auto, unfolding(crate::specs::Catalogue::named_model))]
fn named_model(alloc: Global, name: &[u8], table: &Value) -> Result<NamedModel, CatRefused>
    ensures { Gives result (named_model name.now (view table.now)) }
{
    if !is_name_in(name) || name == INLINE {
        return Err(shape(alloc, name));
    }
    let Some(stated) = model_in(alloc, table)? else {
        return Err(shape(alloc, name));
    };
    let parameters = fields_of(alloc, name, stated.params, stated.parameters)?;
    Ok(NamedModel {
        name: Octets::from_slice(alloc, name)?,
        model: Model {
            params: stated.params,
            objects: stated.objects,
            parameters,
        },
    })
}

/// The models of a document's table.
#[tactic(auto, using(crate::proofs::Ascending::names_ascend))]
pub fn models_of(alloc: Global, table: &Table) -> Result<List<NamedModel>, CatRefused>
    ensures stated { Gives result (models_of (table_view table.now)) }
    ensures ascending { NamesAscend (table_view table.now) }
{
    let mut models = List::new(alloc);
    for (name, value) in table {
        let model = named_model(alloc, name.as_bytes(), value)?;
        models.push(model)?;
    }
    Ok(models)
}
