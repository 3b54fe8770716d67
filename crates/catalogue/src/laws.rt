//! What it means that a catalogue is refused or taken: functions without a body, whose contracts are laws of the definitions.

ghost use Rattle.std.specs.Prelude.{◌≡◌, ◌↔◌, List as Seq, Ok, Err};
ghost use Rattle.knx_model.specs.declared.catalogue.model.NamedModel.{NamedModel as Named};
ghost use Rattle.knx_model.specs.declared.catalogue.refused.CatRefused.{CatRefused as Refusal};
ghost use Rattle.toml.specs.Data.{Members};
ghost use Rattle.catalogue.specs.Catalogue.{models_of};
ghost use Rattle.catalogue.specs.FirstRefusal.{entries, AreModelsOf, IsFirstRefused};

/// A document is refused exactly for its first fault.
pub fn first_refused()
    ensures { (document : Members) (why : Refusal) → (models_of document ≡ Err why) ↔ IsFirstRefused (entries document) why }
{}

/// A document is taken exactly where it breaks no rule, and its models are those that it lists, in its order.
pub fn taken_whole()
    ensures { (document : Members) (models : Seq Named) → (models_of document ≡ Ok models) ↔ AreModelsOf (entries document) models }
{}
