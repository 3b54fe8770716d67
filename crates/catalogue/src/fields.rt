//! The parameters of a model: each one's ranges, and then its overlap with earlier ones.

ghost use Rattle.std.specs.Prelude.{◌≡◌, ◌≢◌, ◌+◌, ◌*◌, ◌<◌, ◌≤◌, ◌^◌, ℕ, length, [], List as Seq, ◌∷◌, ◌++◌, true, Some, None, IfSome, IfOk, IfErr, OnOk};
ghost use Rattle.knx_model.specs.declared.catalogue.model.ModelField.{ModelField as Field};
ghost use Rattle.catalogue.specs.Catalogue.{Gives, natural, is_place, is_span, range_of, field_of, judged, fields_after};
ghost use Rattle.catalogue.specs.Taken.{Takes};

use crate::stated::{FieldNumbers, FieldRange, StatedField};
use crate::taken::{none_taken, take_field};
use knx_model::{CatRefused, List, ModelField, NoMemory, Octets};
use std::alloc::Global;

/// A number that isn't negative.
fn natural(n: i64) -> Option<u64>
    ensures value { result ≡ natural n }
    ensures fits { IfSome result (λ m. m < 2 ^ 63) }
{
    if n < 0 { None } else { Some(n as u64) }
}

/// Whether a field of 1 to 32 bits lies within the parameter memory.
fn is_place(params: u16, bit: u64, width: u64) -> bool
    requires { bit < 2 ^ 63 }
    ensures { result ≡ is_place params bit width }
{
    if width < 1 || width > 32 {
        return false;
    }
    bit + width <= 8 * u64::from(params)
}

/// Whether the least value, the default and the greatest value ascend, and the width holds them.
#[tactic(auto, using(crate::proofs::Numbers::holds_in_32))]
fn is_span(width: u64, min: u64, max: u64, default: u64) -> bool
    requires { width ≤ 32 }
    ensures value { result ≡ is_span width min max default }
    ensures least { result ≡ true → min < 2 ^ 32 }
    ensures greatest { result ≡ true → max < 2 ^ 32 }
    ensures default { result ≡ true → default < 2 ^ 32 }
{
    min <= default && default <= max && max < 1 << width
}

/// The numbers of a parameter, where they are in their ranges.
#[tactic(auto, unfolding(crate::specs::Catalogue::range_of))]
fn range_of(params: u16, numbers: FieldNumbers) -> Option<FieldRange>
    ensures value { result ≡ range_of params numbers }
    ensures wide { IfSome result (λ n. 1 ≤ n.width) }
    ensures within { IfSome result (λ n. n.bit + n.width ≤ 8 * params) }
{
    let (bit, width) = (natural(numbers.bit)?, natural(numbers.width)?);
    let (min, max) = (natural(numbers.min)?, natural(numbers.max)?);
    let default = natural(numbers.default)?;
    if !is_place(params, bit, width) {
        return None;
    }
    if !is_span(width, min, max, default) {
        return None;
    }
    Some(FieldRange {
        bit: bit as u32,
        width: width as u8,
        min: min as u32,
        max: max as u32,
        default: default as u32,
    })
}

/// The field of a parameter whose numbers are in their ranges, or else its name.
fn field_of(params: u16, stated: StatedField) -> Result<ModelField, Octets>
    ensures ok { IfOk result (λ field. field_of params stated ≡ Some field) }
    ensures wide { IfOk result (λ field. 1 ≤ field.width) }
    ensures within { IfOk result (λ field. field.bit + field.width ≤ 8 * params) }
    ensures err { IfErr result (λ name. field_of params stated ≡ None) }
    ensures name { IfErr result (λ name. name ≡ stated.name) }
{
    let StatedField { name, numbers } = stated;
    match range_of(params, numbers) {
        Some(range) => Ok(ModelField {
            name,
            bit: range.bit,
            width: range.width,
            min: range.min,
            max: range.max,
            default: range.default,
        }),
        None => Err(name),
    }
}

/// A parameter's numbers aren't in their ranges.
fn range(alloc: Global, model: &[u8], parameter: Octets) -> CatRefused
    ensures { result ≢ CatRefused.NoMemory tt → result ≡ CatRefused.Range model.now parameter }
{
    match Octets::from_slice(alloc, model) {
        Ok(model) => CatRefused::Range { model, parameter },
        Err(error) => CatRefused::NoMemory(error),
    }
}

/// A parameter shares a bit with an earlier one.
fn overlap(alloc: Global, model: &[u8], parameter: Octets) -> CatRefused
    ensures { result ≢ CatRefused.NoMemory tt → result ≡ CatRefused.Overlap model.now parameter }
{
    match Octets::from_slice(alloc, model) {
        Ok(model) => CatRefused::Overlap { model, parameter },
        Err(error) => CatRefused::NoMemory(error),
    }
}

/// The field of the next parameter, whose bits are then taken too.
#[tactic(auto, unfolding(crate::specs::Catalogue::judged))]
fn next_field(
    alloc: Global,
    model: &[u8],
    params: u16,
    taken: &mut [bool],
    stated: StatedField,
) -> Result<ModelField, CatRefused>
    requires { length taken.old ≡ 8 * params }
    ensures gives { (earlier : Seq Field) → Takes taken.old params earlier → Gives result (judged model.now params earlier stated) }
    ensures takes { IfOk result (λ field. (earlier : Seq Field) → Takes taken.old params earlier → Takes taken.new params (earlier ++ field ∷ [])) }
{
    match field_of(params, stated) {
        Ok(field) => {
            if take_field(taken, &field) {
                Ok(field)
            } else {
                Err(overlap(alloc, model, field.name))
            }
        }
        Err(name) => Err(range(alloc, model, name)),
    }
}

/// The fields of the parameters of a model.
pub fn fields_of(
    alloc: Global,
    model: &[u8],
    params: u16,
    parameters: List<StatedField>,
) -> Result<List<ModelField>, CatRefused>
    ensures { Gives result (fields_after model.now params [] parameters) }
{
    let mut taken = none_taken(alloc, params)?;
    let mut fields = List::new(alloc);
    for stated in parameters.into_vec() {
        let field = next_field(alloc, model, params, taken.as_mut_slice(), stated)?;
        fields.push(field)?;
    }
    Ok(fields)
}
