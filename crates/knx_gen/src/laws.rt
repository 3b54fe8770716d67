//! What is so of every project that a number makes.

ghost use Rattle.std.specs.Prelude.{◌≡◌, ℕ, ◌*◌, ◌<◌, ◌≤◌, ◌++◌, ◌∷◌, [], codes, List, map, Some};
ghost use Rattle.std.specs.List.{range_with_len};
ghost use Rattle.std.specs.Fmt.{decimal};
ghost use Rattle.knx_model.specs.declared.catalogue.model.NamedModel.{NamedModel};
ghost use Rattle.knx_model.specs.Addresses.{device_text};
ghost use Rattle.knx_model.specs.Counts.{counts_of};
ghost use Rattle.knx_model.specs.Flags.{flags_value};
ghost use Rattle.knx_model.specs.Sizes.{size_value};
ghost use Rattle.project_check.specs.Devices.{IsChecked};
ghost use Rattle.knx_gen.specs.Generated.{device_at, object_size, object_flags, generated};

/// It breaks no rule, whatever the catalogue; its devices are 1.1.1 to 1.1.n, with eight objects each, and four links an object.
#[tactic(auto, using(crate::proofs::Lawful::counted))]
pub fn each_project_is_checked()
    ensures checked { (n start : ℕ) (catalogue : List NamedModel) → n ≤ 254 → IsChecked (generated n start) catalogue (map device_at (range_with_len 1 n)) }
    ensures counts { (n start : ℕ) (catalogue : List NamedModel) → n ≤ 254 → counts_of (record { statements = generated n start; catalogue = catalogue }) ≡ record { devices = n; objects = 8 * n; links = 32 * n } }
{}

/// The address, size and flags of its `object` lines are those of the words `1.1.d`, `1` and `CRWTU`.
#[tactic(auto, using(crate::proofs::Lawful::device_word), unfolding(knx_model::specs::Flags::flags_value, knx_model::specs::Sizes::size_value, knx_model::specs::Numbers::number_value, knx_model::specs::Numbers::numeral))]
pub fn each_object_is_as_spelled()
    ensures device { (d : ℕ) → d < 256 → device_text (device_at d) ≡ codes "1.1." ++ decimal d }
    ensures size { size_value (codes "1") ≡ Some object_size }
    ensures flags { flags_value (codes "CRWTU") ≡ Some object_flags }
{}
