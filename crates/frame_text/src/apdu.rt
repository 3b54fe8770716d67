//! A service of the application layer (ISO/IEC 14543-3-1) and its fields.

ghost use Rattle.std.specs.Prelude.{◌≡◌, ◌∷◌, [], ◌++◌, OnOk, codes};
ghost use Rattle.std.specs.Fmt.{decimal};
ghost use Rattle.knx_model.specs.Apdu.{word, optional_word};
ghost use Rattle.frame_text.specs.Spaced.{spaced};
ghost use Rattle.knx_model.specs.TextLines.{hex_text, octets_text, value_text};
ghost use Rattle.frame_text.specs.FrameText.{property_words, property_fields, apdu_name, apdu_fields, apdu_words};

use crate::pieces::{put_hex_word, put_octets};
use knx_model::{Apdu, NoMemory, Octets, Value, put_device_word, put_number_word, put_word};
use report_text::put_value;
use std::alloc::Global;

fn put_value_word(out: &mut Octets, value: &Value) -> Result<(), NoMemory>
    ensures { OnOk result (out.new ≡ out.old ++ 32 ∷ value_text value.now) }
{
    out.push(b' ')?;
    put_value(out, value)
}

fn put_memory(out: &mut Octets, address: u16, octets: &[u8]) -> Result<(), NoMemory>
    ensures { OnOk result (out.new ≡ out.old ++ spaced (hex_text (word address) ∷ octets_text octets.now ∷ [])) }
{
    put_hex_word(out, address)?;
    put_octets(out, octets)
}

fn put_descriptor(
    alloc: Global,
    out: &mut Octets,
    kind: u8,
    value: Option<u16>,
) -> Result<(), NoMemory>
    ensures { OnOk result (out.new ≡ out.old ++ spaced (decimal kind ∷ octets_text (optional_word value) ∷ [])) }
{
    put_number_word(alloc, out, u64::from(kind))?;
    match value {
        None => put_octets(out, &[]),
        Some(value) => put_octets(out, &value.to_be_bytes()),
    }
}

/// Which elements of which property.
#[derive(Clone, Copy)]
struct Elements {
    object: u8,
    property: u8,
    count: u8,
    start: u16,
}

fn put_elements(
    alloc: Global,
    out: &mut Octets,
    of: Elements,
    octets: &[u8],
) -> Result<(), NoMemory>
    ensures { OnOk result (out.new ≡ out.old ++ spaced (property_words of.object of.property of.count of.start octets.now)) }
{
    put_number_word(alloc, out, u64::from(of.object))?;
    put_number_word(alloc, out, u64::from(of.property))?;
    put_number_word(alloc, out, u64::from(of.count))?;
    put_number_word(alloc, out, u64::from(of.start))?;
    put_octets(out, octets)
}

/// Appends the fields of a service on a property.
fn put_property(alloc: Global, out: &mut Octets, apdu: &Apdu) -> Result<(), NoMemory>
    ensures { OnOk result (out.new ≡ out.old ++ spaced (property_fields apdu.now)) }
{
    let none = [];
    let (object, property, count, start, octets) = match apdu {
        Apdu::PropertyRead {
            object,
            property,
            count,
            start,
        } => (object, property, count, start, none.as_slice()),
        Apdu::PropertyResponse {
            object,
            property,
            count,
            start,
            octets,
        } => (object, property, count, start, octets.as_slice()),
        Apdu::PropertyWrite {
            object,
            property,
            count,
            start,
            octets,
        } => (object, property, count, start, octets.as_slice()),
        _ => return Ok(()),
    };
    let of = Elements {
        object: *object,
        property: *property,
        count: *count,
        start: *start,
    };
    put_elements(alloc, out, of, octets)
}

fn name_of(apdu: &Apdu) -> &'static str
    ensures { result.now ≡ apdu_name apdu.now }
{
    match apdu {
        Apdu::GroupRead => "group-read",
        Apdu::GroupResponse(_) => "group-response",
        Apdu::GroupWrite(_) => "group-write",
        Apdu::AddressWrite(_) => "individual-address-write",
        Apdu::AddressRead => "individual-address-read",
        Apdu::AddressResponse => "individual-address-response",
        Apdu::MemoryRead { .. } => "memory-read",
        Apdu::MemoryResponse { .. } => "memory-response",
        Apdu::MemoryWrite { .. } => "memory-write",
        Apdu::DescriptorRead(_) => "descriptor-read",
        Apdu::DescriptorResponse { .. } => "descriptor-response",
        Apdu::PropertyRead { .. } => "property-read",
        Apdu::PropertyResponse { .. } => "property-response",
        Apdu::PropertyWrite { .. } => "property-write",
    }
}

fn put_fields(alloc: Global, out: &mut Octets, apdu: &Apdu) -> Result<(), NoMemory>
    ensures { OnOk result (out.new ≡ out.old ++ spaced (apdu_fields apdu.now)) }
{
    match apdu {
        Apdu::GroupResponse(value) => put_value_word(out, value),
        Apdu::GroupWrite(value) => put_value_word(out, value),
        Apdu::AddressWrite(address) => put_device_word(alloc, out, *address),
        Apdu::MemoryRead { count, address } => {
            put_number_word(alloc, out, u64::from(*count))?;
            put_hex_word(out, *address)
        }
        Apdu::MemoryResponse { address, octets } => put_memory(out, *address, octets.as_slice()),
        Apdu::MemoryWrite { address, octets } => put_memory(out, *address, octets.as_slice()),
        Apdu::DescriptorRead(kind) => put_descriptor(alloc, out, *kind, None),
        Apdu::DescriptorResponse { kind, value } => put_descriptor(alloc, out, *kind, *value),
        _ => put_property(alloc, out, apdu),
    }
}

/// Appends the word of a service and its fields.
#[tactic(auto, unfolding(crate::specs::FrameText::apdu_words))]
pub fn put_apdu(alloc: Global, out: &mut Octets, apdu: &Apdu) -> Result<(), NoMemory>
    ensures { OnOk result (out.new ≡ out.old ++ spaced (apdu_words apdu.now)) }
{
    put_word(out, name_of(apdu).as_bytes())?;
    put_fields(alloc, out, apdu)
}
