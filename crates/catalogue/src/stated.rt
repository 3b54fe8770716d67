//! What the tables of a catalogue state, before the numbers of the parameters are judged.

use knx_model::{List, ModelObject, Octets};

/// The kinds of tables.
#[derive(Clone, Copy)]
pub enum TableKind {
    Model,
    Object,
    Parameter,
}

/// The five numbers of a parameter, as they stand.
#[derive(Clone, Copy)]
pub struct FieldNumbers {
    pub bit: i64,
    pub width: i64,
    pub min: i64,
    pub max: i64,
    pub default: i64,
}

/// The five numbers of a parameter, in their ranges.
#[derive(Clone, Copy)]
pub struct FieldRange {
    pub bit: u32,
    pub width: u8,
    pub min: u32,
    pub max: u32,
    pub default: u32,
}

/// A parameter with its name.
#[derive(Drop)]
pub struct StatedField {
    pub name: Octets,
    pub numbers: FieldNumbers,
}

/// A model: the octets of its parameter memory, its objects, and its parameters.
#[derive(Drop)]
pub struct StatedModel {
    pub params: u16,
    pub objects: List<ModelObject>,
    pub parameters: List<StatedField>,
}
