//! What a project means for one device, and the tables and parameter memory that stand for it.

use crate::address::GroupAddr;
use crate::lists::{List, Octets};

/// The priority of an object's telegrams in its flag octet: always low.
pub const PRIORITY: u8 = 0x03;
/// The flag communicate in a flag octet.
pub const COMMUNICATE: u8 = 0x04;
/// The flag read.
pub const READ: u8 = 0x08;
/// The flag write.
pub const WRITE: u8 = 0x10;
/// The flag read at start.
pub const READ_AT_START: u8 = 0x20;
/// The flag transmit.
pub const TRANSMIT: u8 = 0x40;
/// The flag update.
pub const UPDATE: u8 = 0x80;

/// One object of a device: its flag octet and its size code. A number without object has both 0.
#[derive(Clone, Copy, Debug, PartialEq, Eq)]
pub struct ObjSpec {
    pub flags: u8,
    pub size: u8,
}

/// An object that is linked to a group; `sending` is true of the link to the object's sending address.
#[derive(Clone, Copy)]
pub struct LinkSpec {
    pub object: u8,
    pub group: GroupAddr,
    pub sending: bool,
}

/// A field of the parameter memory with its value: its first bit, where bit 0 is the highest bit of the first octet, and its
/// width of 1 to 32 bits.
#[derive(Clone, Copy)]
pub struct ParamValue {
    pub bit: u32,
    pub width: u8,
    pub value: u32,
}

/// What a device is to do: its links, its objects from number 1 to the greatest, and its parameter memory, of so many octets
/// with these fields.
#[derive(Drop)]
pub struct Config {
    pub links: List<LinkSpec>,
    pub objects: List<ObjSpec>,
    pub param_len: u16,
    pub params: List<ParamValue>,
}

/// The contents of the four segments of a device, each of its allocated length: address table, association table, group
/// objects and parameter memory.
#[derive(Drop)]
pub struct Image {
    pub addr: Octets,
    pub assoc: Octets,
    pub objs: Octets,
    pub params: Octets,
}
