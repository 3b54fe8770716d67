//! The model of a device: that of its `device` line.

ghost use Rattle.std.specs.Prelude.{◌≡◌, Some};
ghost use Rattle.knx_model.specs.Meaning.{or_inline};
ghost use Rattle.knx_model.specs.Models.{inline, IsModel};
ghost use Rattle.knx_model.specs.Rules.{named_model};
ghost use Rattle.table_compiler.specs.Drafts.{text_of};

use knx_model::{Catalogue, INLINE, List, Model};
use std::alloc::Global;

/// The model of a device that is declared `inline`. It takes no memory.
pub fn inline(alloc: Global) -> Model
    ensures { result ≡ inline }
{
    Model {
        params: 0,
        objects: List::new(alloc),
        parameters: List::new(alloc),
    }
}

/// The model of a name, or `inline` where it is unknown.
fn model_named<'a>(catalogue: &'a Catalogue, inline_model: &'a Model, name: &[u8]) -> &'a Model
    requires { inline_model.now ≡ inline }
    ensures model { result.now ≡ or_inline (named_model catalogue.now (Some name.now)) }
    ensures sound { IsModel result.now }
{
    if name == INLINE {
        return inline_model;
    }
    match catalogue.model_in(name) {
        Some(model) => model,
        None => inline_model,
    }
}

/// The model of a name, or `inline` where there is none.
pub fn model_of<'a>(
    catalogue: &'a Catalogue,
    inline_model: &'a Model,
    name: Option<&[u8]>,
) -> &'a Model
    requires { inline_model.now ≡ inline }
    ensures model { result.now ≡ or_inline (named_model catalogue.now (text_of name.entry)) }
    ensures sound { IsModel result.now }
{
    match name {
        Some(name) => model_named(catalogue, inline_model, name),
        None => inline_model,
    }
}
