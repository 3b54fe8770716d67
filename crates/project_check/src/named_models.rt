//! The models that `device` lines name.

ghost use Rattle.std.specs.Prelude.{◌≡◌, ◌||◌, ℕ, List, [], Some, None, true, is_some, bytes_eq, IfOk, OnOk, IfSome, IfNone};
ghost use Rattle.std.specs.HashMap.{get_by};
ghost use Rattle.knx_model.specs.declared.catalogue.model.Model.{Model};
ghost use Rattle.knx_model.specs.declared.catalogue.model.NamedModel.{NamedModel};
ghost use Rattle.knx_model.specs.declared.project.Statement.{Statement as Stated};
ghost use Rattle.knx_model.specs.Models.{model_named};
ghost use Rattle.knx_model.specs.Rules.{some_line};
ghost use Rattle.project_check.specs.Keys.{names_model};
ghost use Rattle.project_check.specs.Knowing.{AreNamed, Indexes, AreRight};

use crate::models::ModelIndex;
use knx_model::{Catalogue, Statement, What};
use std::alloc::{AllocError, Global};
use std::collections::HashMap;

/// The models that `device` lines name, by their names; none where one is unknown.
#[derive(Drop)]
pub struct NamedModels<'a> {
    pub models: HashMap<&'a [u8], Option<ModelIndex<'a>>>,
}

/// Adds the model of a name, where there is none yet.
fn add_named<'a>(
    alloc: Global,
    models: &mut HashMap<&'a [u8], Option<ModelIndex<'a>>>,
    catalogue: &'a Catalogue,
    name: &'a [u8],
) -> Result<(), AllocError>
    ensures present { OnOk result ((other : List ℕ) → is_some (get_by (λ key. bytes_eq other key.now) models.new) ≡ (is_some (get_by (λ key. bytes_eq other key.now) models.old) || bytes_eq name.now other)) }
    ensures right { OnOk result (AreRight catalogue.now models.old → AreRight catalogue.now models.new) }
{
    if !models.contains_key(&name) {
        let index = ModelIndex::named(alloc, catalogue, name)?;
        models.insert(name, index)?;
    }
    Ok(())
}

/// Adds the model that a `device` line names, where it is the first that names it.
fn add_model<'a>(
    alloc: Global,
    models: &mut HashMap<&'a [u8], Option<ModelIndex<'a>>>,
    catalogue: &'a Catalogue,
    what: &'a What<'a>,
) -> Result<(), AllocError>
    ensures present { OnOk result ((name : List ℕ) → is_some (get_by (λ key. bytes_eq name key.now) models.new) ≡ (is_some (get_by (λ key. bytes_eq name key.now) models.old) || names_model name what.now)) }
    ensures right { OnOk result (AreRight catalogue.now models.old → AreRight catalogue.now models.new) }
{
    match what {
        What::Device { model, .. } => add_named(alloc, models, catalogue, model.as_slice()),
        _ => Ok(()),
    }
}

impl<'a> NamedModels<'a> {
    /// The models that no statements name. It takes no memory.
    pub fn new(alloc: Global) -> NamedModels<'a>
        ensures { (catalogue : List NamedModel) → AreNamed catalogue result [] }
    {
        NamedModels {
            models: HashMap::new(alloc),
        }
    }

    /// The models that these statements name.
    pub fn of(
        alloc: Global,
        catalogue: &'a Catalogue,
        statements: &'a [Statement<'a>],
    ) -> Result<NamedModels<'a>, AllocError>
        ensures { IfOk result (λ named. AreNamed catalogue.now named statements.now) }
    {
        let mut named = NamedModels::new(alloc);
        for statement in statements {
            add_model(alloc, &mut named.models, catalogue, &statement.what)?;
        }
        Ok(named)
    }

    /// The model of a name that stands in a `device` line; none where it is unknown.
    pub fn named(&self, name: &'a [u8]) -> Option<&ModelIndex<'a>>
        ensures some { IfSome result (λ index. (catalogue : List NamedModel) (ss : List Stated) → AreNamed catalogue self.now ss → (m : Model) × (model_named catalogue name.now ≡ Some m) × Indexes index.now m) }
        ensures none { IfNone result ((catalogue : List NamedModel) (ss : List Stated) → AreNamed catalogue self.now ss → some_line (names_model name.now) ss ≡ true → model_named catalogue name.now ≡ None) }
        ensures known { (catalogue : List NamedModel) (ss : List Stated) → AreNamed catalogue self.now ss → some_line (names_model name.now) ss ≡ true → is_some result ≡ is_some (model_named catalogue name.now) }
    {
        self.models.get(&name)?.as_ref()
    }
}
