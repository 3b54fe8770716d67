//! What a catalogue says of a model.

use crate::lists::{List, Octets};

/// A group object of a model: its number from 1 to 255, its size code and its flag octet.
#[derive(Clone, Copy, Drop, PartialEq, Eq)]
pub struct ModelObject {
    pub n: u8,
    pub size: u8,
    pub flags: u8,
}

/// A parameter of a model: its name, its place in the parameter memory, its least and greatest value, and the value that it
/// has where none is set. Bit 0 is the highest bit of the first octet; the width is 1 to 32 bits.
#[derive(Drop)]
pub struct ModelField {
    pub name: Octets,
    pub bit: u32,
    pub width: u8,
    pub min: u32,
    pub max: u32,
    pub default: u32,
}

/// What a catalogue says of a model: the number of octets of its parameter memory, its group objects and its parameters.
#[derive(Drop)]
pub struct Model {
    pub params: u16,
    pub objects: List<ModelObject>,
    pub parameters: List<ModelField>,
}

/// The name of the model without objects and parameters; a catalogue that is read has no model of this name.
pub const INLINE: &[u8] = b"inline";

/// A model with its name.
#[derive(Drop)]
pub struct NamedModel {
    pub name: Octets,
    pub model: Model,
}
