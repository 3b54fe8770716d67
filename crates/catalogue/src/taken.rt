//! The bits of a parameter memory that are taken.

ghost use Rattle.std.specs.Prelude.{◌≡◌, ◌+◌, ◌<◌, ◌≤◌, ◌||◌, ℕ, true, false, not, length, get_or, IfOk, [], List, ◌∷◌, ◌++◌};
ghost use Rattle.std.specs.List.{list_any};
ghost use Rattle.knx_model.specs.declared.catalogue.model.ModelField.{ModelField as Field};
ghost use Rattle.catalogue.specs.Catalogue.{shares_bit};
ghost use Rattle.catalogue.specs.Taken.{is_within, Takes};

use knx_model::{ModelField, NoMemory};
use std::alloc::Global;

/// A memory of so many octets, of which no bit is taken.
pub fn none_taken(alloc: Global, octets: u16) -> Result<Vec<bool>, NoMemory>
    ensures { IfOk result (λ taken. Takes taken.items octets []) }
{
    Ok(vec![in alloc; false; 8 * usize::from(octets)]?)
}

/// Whether one of the bits is taken.
fn is_any_taken(taken: &[bool], bit: usize, width: usize) -> bool
    requires { bit + width ≤ length taken.now }
    ensures one { result ≡ true → (b : ℕ) × (bit ≤ b) × (b < bit + width) × (get_or taken.now b false ≡ true) }
    ensures none { result ≡ false → (b : ℕ) → bit ≤ b → b < bit + width → get_or taken.now b false ≡ false }
{
    for place in bit..bit + width {
        if taken[place] {
            return true;
        }
    }
    false
}

/// Takes the bits.
fn take_bits(taken: &mut [bool], bit: usize, width: usize)
    requires { bit + width ≤ length taken.old }
    ensures { (b : ℕ) → b < length taken.old → get_or taken.new b false ≡ (get_or taken.old b false || is_within bit width b) }
{
    for place in bit..bit + width {
        taken[place] = true;
    }
}

/// Takes the bits of a field, where none of them is of an earlier field.
pub fn take_field(taken: &mut [bool], field: &ModelField) -> bool
    requires within { field.now.bit + field.now.width ≤ length taken.old }
    requires wide { 1 ≤ field.now.width }
    ensures free { (octets : ℕ) (earlier : List Field) → Takes taken.old octets earlier → result ≡ not (list_any (shares_bit field.now) earlier) }
    ensures taken { (octets : ℕ) (earlier : List Field) → Takes taken.old octets earlier → result ≡ true → Takes taken.new octets (earlier ++ field.now ∷ []) }
{
    let (bit, width) = (field.bit as usize, usize::from(field.width));
    if is_any_taken(taken, bit, width) {
        return false;
    }
    take_bits(taken, bit, width);
    true
}
