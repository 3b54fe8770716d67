//! Laws of the units' text, each a function without a body whose contract is the law.

ghost use Rattle.std.specs.Prelude.{◌≡◌, ◌↔◌, ℕ, List as Seq, [], ◌∷◌, Some, Ok};
ghost use Rattle.std.specs.Str.Lines.{lines};
ghost use Rattle.knx_model.specs.LeastLine.{refused_from, IsLeastRefused, AllLinesSay};
ghost use Rattle.knx_model.specs.declared.refusal.Refused.{Refused};
ghost use Rattle.address_text.specs.declared.line.UnitLine.{UnitLine};
ghost use Rattle.address_text.specs.UnitSpelling.{SpellsUnitLine};
ghost use Rattle.address_text.specs.UnitText.{units_say, unit_words_say};

/// The words of a line are read as a unit or a loss just where they spell it.
pub fn line_spelled()
    ensures { (ws : Seq (Seq ℕ)) (what : UnitLine) → (unit_words_say ws ≡ Ok (Some what)) ↔ SpellsUnitLine ws what }
{}

/// The refusal is of the least line that breaks a rule, and where no line does there is none.
pub fn least_line()
    ensures least { (octets : Seq ℕ) (r : Refused) (rs : Seq Refused) → refused_from (units_say (lines octets)) 1 (lines octets) ≡ r ∷ rs → IsLeastRefused (units_say (lines octets)) octets r }
    ensures none { (octets : Seq ℕ) → refused_from (units_say (lines octets)) 1 (lines octets) ≡ [] → AllLinesSay (units_say (lines octets)) octets }
{}
