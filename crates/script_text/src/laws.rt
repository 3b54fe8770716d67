//! Laws of the script's text, each a function without a body whose contract is the law.

ghost use Rattle.std.specs.Prelude.{◌≡◌, ◌<◌, ℕ, List as Seq, [], ◌∷◌, ◌++◌, length, take, Some, None, Ok, Err, ◌↔◌, slice_get};
ghost use Rattle.std.specs.Str.Lines.{lines};
ghost use Rattle.knx_model.specs.LeastLine.{refused_from, IsLeastRefused, AllLinesSay};
ghost use Rattle.knx_model.specs.ScriptText.{script_words_say, script_says, first_stranger, SpellsLine, IsStranger, IsFirstStranger};
ghost use Rattle.knx_model.specs.declared.address.IndAddr.{IndAddr};
ghost use Rattle.knx_model.specs.declared.refusal.Refused.{Refused};
ghost use Rattle.knx_model.specs.declared.refusal.Why.{Why};
ghost use Rattle.knx_model.specs.declared.refusal.Why.TheVariants.{MissingWord, ExtraWord};
ghost use Rattle.knx_model.specs.Places.{Place, FirstMisfit};
ghost use Rattle.script_text.specs.Wants.{Wants};
ghost use Rattle.knx_model.specs.declared.script.ScriptLine.{ScriptLine};
ghost use Rattle.knx_model.specs.declared.script.ScriptWhat.{ScriptWhat};

/// The words of a line are read as a line of the script just where they spell it.
pub fn line_spelled()
    ensures { (ws : Seq (Seq ℕ)) (what : ScriptWhat) → (script_words_say ws ≡ Ok (Some what)) ↔ SpellsLine ws what }
{}

/// Behind the words of a line any further word is one too many; and of its first words alone, not all of them, one is missing.
pub fn words_too_many_or_few()
    ensures longer { (ws more : Seq (Seq ℕ)) (word : Seq ℕ) (what : ScriptWhat) → SpellsLine ws what → script_words_say (ws ++ word ∷ more) ≡ Err ExtraWord }
    ensures shorter { (ws : Seq (Seq ℕ)) (what : ScriptWhat) (k : ℕ) → SpellsLine ws what → 0 < k → k < length ws → script_words_say (take k ws) ≡ Err MissingWord }
{}

/// The first word that isn't what its place wants is refused as its place says: an address, or a number.
pub fn first_misfit()
    ensures { (line : Seq (Seq ℕ)) (places : Seq Place) (ws : Seq (Seq ℕ)) (why : Why) → Wants line places → FirstMisfit places ws why → script_words_say (line ++ ws) ≡ Err why }
{}

/// The refusal is of the least line that breaks a rule, and where no line does there is none.
pub fn least_line()
    ensures least { (octets : Seq ℕ) (r : Refused) (rs : Seq Refused) → refused_from script_says 1 (lines octets) ≡ r ∷ rs → IsLeastRefused script_says octets r }
    ensures none { (octets : Seq ℕ) → refused_from script_says 1 (lines octets) ≡ [] → AllLinesSay script_says octets }
{}

/// The stranger that is told is of the first line that names a device which isn't listed, and where no line does there is none.
pub fn least_stranger()
    ensures first { (devices : Seq IndAddr) (ls : Seq ScriptLine) (r : Refused) → first_stranger devices ls ≡ Some r → IsFirstStranger devices ls r }
    ensures none { (devices : Seq IndAddr) (ls : Seq ScriptLine) → first_stranger devices ls ≡ None → (k : ℕ) (l : ScriptLine) → slice_get ls k ≡ Some l → ¬ IsStranger devices l }
{}
