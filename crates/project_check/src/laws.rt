//! What the refusal of a whole project says, whoever found it.

ghost use Rattle.std.specs.Prelude.{◌≡◌, List, Some, None};
ghost use Rattle.knx_model.specs.declared.catalogue.model.NamedModel.{NamedModel};
ghost use Rattle.knx_model.specs.declared.project.Statement.{Statement};
ghost use Rattle.knx_model.specs.declared.refusal.Refused.{Refused};
ghost use Rattle.knx_model.specs.Rules.{first_broken};
ghost use Rattle.project_check.specs.Breaking.{IsLeastBroken, NoneBreaks};

/// The refusal is of the least line that breaks a rule, by the rule of the least number that this line breaks; where there is none, no
/// line breaks a rule.
pub fn least_broken()
    ensures least { (catalogue : List NamedModel) (ss : List Statement) (r : Refused) → first_broken catalogue ss ≡ Some r → IsLeastBroken catalogue ss r }
    ensures none { (catalogue : List NamedModel) (ss : List Statement) → first_broken catalogue ss ≡ None → NoneBreaks catalogue ss }
{}
