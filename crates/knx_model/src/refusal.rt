//! Why a text is refused.

ghost use Rattle.std.specs.Prelude.{◌≡◌};
ghost use Rattle.knx_model.specs.Refusal.{why_number, why_word};

use crate::no_memory::NoMemory;

/// Why a project text or a script is refused, each with its number but for want of memory.
#[derive(Clone, Copy, Debug, Drop, PartialEq, Eq)]
pub enum Why {
    /// There was no memory.
    NoMemory(NoMemory),
    /// The line isn't UTF-8, or has an octet below 20 (hexadecimal) other than tab, or 7F.
    NotText,
    /// The line has more than 512 octets without its end.
    LongLine,
    /// A statement word isn't one of the language.
    UnknownWord,
    /// A word in an address's place isn't that address.
    BadAddress,
    /// A word in a number's, size's or value's place isn't in its range.
    BadNumber,
    /// A word in a name's or flags' place isn't one.
    BadName,
    /// The line ends before its last needed word.
    MissingWord,
    /// A word follows the last one.
    ExtraWord,
    /// A `device` line's address stands in an earlier one.
    DuplicateDevice,
    /// A `ga` line's address stands in an earlier one.
    DuplicateGroup,
    /// A group of a `link` or `send` line stands in no `ga` line.
    UnknownGroup,
    /// A `device` line's model isn't known.
    UnknownModel,
    /// An `object` line's number stands in an earlier one of its device or in its model.
    DuplicateObject,
    /// A `link`, `send` or `flags` line's object is none of its device.
    UnknownObject,
    /// A `link` line's device, object and one of its groups stand in an earlier one, or a group stands twice in the line.
    DuplicateLink,
    /// A `param` line's name isn't a parameter of its device's model.
    UnknownParameter,
    /// A `param` line's value is below the least or above the greatest.
    OutOfRange,
    /// A `link` line's object has another size than the object of the first `link` line of one of its groups.
    SizeDiffers,
    /// There is more of something than its limit.
    TooMany { limit: u32 },
    /// A line's device stands in no `device` line.
    NoDevice,
    /// A `send` line's device, object and group stand in no `link` line.
    NotLinked,
    /// A `version` line isn't the first line with words, or its number isn't 2.
    BadVersion,
}

impl Why {
    /// Its number, from 1; none for want of memory.
    pub fn number(&self) -> Option<u8>
        ensures { result ≡ why_number self.now }
    {
        match self {
            Why::NoMemory(_) => None,
            Why::NotText => Some(1),
            Why::LongLine => Some(2),
            Why::UnknownWord => Some(3),
            Why::BadAddress => Some(4),
            Why::BadNumber => Some(5),
            Why::BadName => Some(6),
            Why::MissingWord => Some(7),
            Why::ExtraWord => Some(8),
            Why::DuplicateDevice => Some(9),
            Why::DuplicateGroup => Some(10),
            Why::UnknownGroup => Some(11),
            Why::UnknownModel => Some(12),
            Why::DuplicateObject => Some(13),
            Why::UnknownObject => Some(14),
            Why::DuplicateLink => Some(15),
            Why::UnknownParameter => Some(16),
            Why::OutOfRange => Some(17),
            Why::SizeDiffers => Some(18),
            Why::TooMany { .. } => Some(19),
            Why::NoDevice => Some(20),
            Why::NotLinked => Some(22),
            Why::BadVersion => Some(23),
        }
    }

    /// Its word, as it is printed.
    pub fn word(&self) -> &'static str
        ensures { result.now ≡ why_word self.now }
    {
        match self {
            Why::NoMemory(_) => "NoMemory",
            Why::NotText => "NotText",
            Why::LongLine => "LongLine",
            Why::UnknownWord => "UnknownWord",
            Why::BadAddress => "BadAddress",
            Why::BadNumber => "BadNumber",
            Why::BadName => "BadName",
            Why::MissingWord => "MissingWord",
            Why::ExtraWord => "ExtraWord",
            Why::DuplicateDevice => "DuplicateDevice",
            Why::DuplicateGroup => "DuplicateGroup",
            Why::UnknownGroup => "UnknownGroup",
            Why::UnknownModel => "UnknownModel",
            Why::DuplicateObject => "DuplicateObject",
            Why::UnknownObject => "UnknownObject",
            Why::DuplicateLink => "DuplicateLink",
            Why::UnknownParameter => "UnknownParameter",
            Why::OutOfRange => "OutOfRange",
            Why::SizeDiffers => "SizeDiffers",
            Why::TooMany { .. } => "TooMany",
            Why::NoDevice => "NoDevice",
            Why::NotLinked => "NotLinked",
            Why::BadVersion => "BadVersion",
        }
    }
}

impl From<NoMemory> for Why {
    ghost use Rattle.knx_model.specs.declared.refusal.Why.{Why};

    ghost from_gives = { λ _ why. why ≡ Why.NoMemory tt };

    fn from(error: NoMemory) -> Why {
        Why::NoMemory(error)
    }
}

/// A refused text: the line, from 1, or 0 for the text as a whole, and why.
#[derive(Clone, Copy, Debug, Drop, PartialEq, Eq)]
pub struct Refused {
    pub line: u32,
    pub why: Why,
}
