//! Laws of the project language, each a function without a body whose contract is the law.

ghost use Rattle.std.specs.Prelude.{◌≡◌, ◌<◌, ◌≤◌, ℕ, Bool, List as Seq, [], ◌∷◌, ◌++◌, length, take, Some, None, Ok, Err, IsTrue, ◌↔◌};
ghost use Rattle.std.specs.Str.Lines.{lines};
ghost use Rattle.knx_model.specs.LeastLine.{AllLinesSay, IsLeastRefused, refused_from};
ghost use Rattle.knx_model.specs.Statements.{are_spellable, are_numbered, grammar_of, project_says, reading, words_say};
ghost use Rattle.knx_model.specs.declared.address.IndAddr.{IndAddr};
ghost use Rattle.knx_model.specs.declared.catalogue.model.NamedModel.{NamedModel};
ghost use Rattle.knx_model.specs.declared.project.Grammar.{Grammar};
ghost use Rattle.knx_model.specs.Meaning.{meaning};
ghost use Rattle.knx_model.specs.Rules.{first_broken};
ghost use Rattle.knx_model.specs.declared.project.Statement.{Statement};
ghost use Rattle.knx_model.specs.declared.project.TextVersion.{TextVersion};
ghost use Rattle.knx_model.specs.declared.project.What.{What};
ghost use Rattle.knx_model.specs.declared.refusal.Refused.{Refused};
ghost use Rattle.knx_model.specs.declared.refusal.Why.{Why};
ghost use Rattle.knx_model.specs.declared.refusal.Why.TheVariants.{MissingWord, ExtraWord};
ghost use Rattle.knx_model.specs.Places.{Place, FirstMisfit};
ghost use Rattle.project_text.specs.Migrated.{migrated};
ghost use Rattle.project_text.specs.Printing.{printed, renumbered_from};
ghost use Rattle.knx_model.specs.declared.project.TextVersion.TheVariants.{Two};
ghost use Rattle.project_text.specs.Spelling.{SpellsStatement, TellsVersion2, is_full, needed};
ghost use Rattle.project_text.specs.Wants.{Wants};

/// The words of a line are read as a statement exactly where they spell it.
pub fn statement_spelled()
    ensures { (version : TextVersion) (is_first : Bool) (ws : Seq (Seq ℕ)) (what : What) → (words_say version is_first ws ≡ Ok (Some what)) ↔ SpellsStatement version is_first ws what }
{}

/// Behind the words of a statement any further word is one too many, where it isn't a group more of a `link` line that may have more;
/// and of its first words alone, not all that it needs, one is missing.
pub fn words_too_many_or_few()
    ensures longer { (version : TextVersion) (is_first : Bool) (ws more : Seq (Seq ℕ)) (word : Seq ℕ) (what : What) → SpellsStatement version is_first ws what → IsTrue (is_full version what) → words_say version is_first (ws ++ word ∷ more) ≡ Err ExtraWord }
    ensures shorter { (version : TextVersion) (is_first : Bool) (ws : Seq (Seq ℕ)) (what : What) (k : ℕ) → SpellsStatement version is_first ws what → 0 < k → k < needed what → words_say version is_first (take k ws) ≡ Err MissingWord }
{}

/// The first word that isn't what its place wants is refused as its place says: an address, a number, or a name.
pub fn first_misfit()
    ensures { (version : TextVersion) (is_first : Bool) (word : Seq ℕ) (places : Seq Place) (ws : Seq (Seq ℕ)) (why : Why) → Wants version word places → FirstMisfit places ws why → words_say version is_first (word ∷ ws) ≡ Err why }
{}

/// The refusal is of the least line that breaks a rule, and where no line does there is none.
pub fn least_line()
    ensures least { (grammar : Grammar) (octets : Seq ℕ) (r : Refused) (rs : Seq Refused) → refused_from (project_says grammar) 1 (lines octets) ≡ r ∷ rs → IsLeastRefused (project_says grammar) octets r }
    ensures none { (grammar : Grammar) (octets : Seq ℕ) → refused_from (project_says grammar) 1 (lines octets) ≡ [] → AllLinesSay (project_says grammar) octets }
{}

/// A text is of version 2 exactly where its first line with words is `version 2`.
pub fn version_by_first_line()
    ensures { (octets : Seq ℕ) → ((grammar_of octets).version ≡ Two) ↔ TellsVersion2 octets }
{}

/// Statements that can be spelled are read again from their text, numbered anew, unless it is too long.
pub fn printed_again()
    ensures { (statements : Seq Statement) → IsTrue (are_spellable statements) → length (printed statements) ≤ 4194304 → reading (printed statements) ≡ Ok (renumbered_from 1 statements) }
{}

/// A migrated project means for each device what the project means.
pub fn migrated_means_the_same()
    ensures { (statements : Seq Statement) (catalogue : Seq NamedModel) (device : IndAddr) → IsTrue (are_spellable statements) → meaning (record { statements = migrated statements; catalogue = catalogue }) device ≡ meaning (record { statements = statements; catalogue = catalogue }) device }
{}

/// A migrated project can be spelled, in lines that ascend from 1, and is read from its text as itself, unless it is too long.
pub fn migrated_reads_again()
    ensures spelled { (statements : Seq Statement) → IsTrue (are_spellable statements) → IsTrue (are_spellable (migrated statements)) }
    ensures numbered { (statements : Seq Statement) → IsTrue (are_numbered 0 (migrated statements)) }
    ensures read { (statements : Seq Statement) → IsTrue (are_spellable statements) → length (printed (migrated statements)) ≤ 4194304 → reading (printed (migrated statements)) ≡ Ok (migrated statements) }
{}

/// A project that is migrated twice is as the one that is migrated once.
pub fn migrated_twice()
    ensures { (statements : Seq Statement) → migrated (migrated statements) ≡ migrated statements }
{}

/// A project that breaks no rule breaks none when it is migrated.
pub fn migrated_breaks_no_rule()
    ensures { (catalogue : Seq NamedModel) (statements : Seq Statement) → first_broken catalogue statements ≡ None → first_broken catalogue (migrated statements) ≡ None }
{}
