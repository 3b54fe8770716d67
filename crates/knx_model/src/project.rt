//! The statements of a project text. Their names are borrowed from the text.

use crate::address::{GroupAddr, IndAddr};
use crate::groups::Groups;
use crate::words::Name;

/// The version of a project text: 2 where its first line with words is `version 2`, else 1.
#[derive(Clone, Copy)]
pub enum TextVersion {
    One,
    Two,
}

/// How the lines of a text are read: the version of the text, and the number of its first line with words.
#[derive(Clone, Copy)]
pub struct Grammar {
    pub version: TextVersion,
    pub first: u32,
}

/// What a statement says. Flags are the flag octet and sizes the size code of the group objects' table.
#[derive(Drop)]
pub enum What<'a> {
    /// `version 2`
    Version,
    /// `project NAME`
    Title(Name<'a>),
    /// `ga GA NAME`
    Group {
        group: GroupAddr,
        name: Name<'a>,
    },
    /// `device IA MODEL`
    Device {
        device: IndAddr,
        model: Name<'a>,
    },
    /// `object IA N SIZE FLAGS`
    Object {
        device: IndAddr,
        n: u8,
        size: u8,
        flags: u8,
    },
    /// `link IA N GA`, in version 2 with up to 32 groups
    Link {
        device: IndAddr,
        object: u8,
        groups: Groups,
    },
    /// `send IA N GA`, in version 2 alone
    Send {
        device: IndAddr,
        object: u8,
        group: GroupAddr,
    },
    /// `flags IA N FLAGS`
    Flags {
        device: IndAddr,
        object: u8,
        flags: u8,
    },
    /// `param IA NAME VALUE`
    Param {
        device: IndAddr,
        name: Name<'a>,
        value: u32,
    },
}

/// A statement, and the number of its line, from 1.
#[derive(Drop)]
pub struct Statement<'a> {
    pub line: u32,
    pub what: What<'a>,
}
