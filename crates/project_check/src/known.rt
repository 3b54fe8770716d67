//! What a text and its models tell of a group object and of a parameter.

ghost use Rattle.std.specs.Prelude.{◌≡◌, ◌&&◌, is_none};
ghost use Rattle.project_check.specs.Keys.{is_outside};

use crate::models::Range;

/// What is known of a group object: whether the model of its device is, and its size code.
#[derive(Clone, Copy)]
pub struct KnownObject {
    pub modelled: bool,
    pub size: Option<u8>,
}

impl KnownObject {
    /// Whether the model is known, and neither it nor an `object` line has the group object.
    pub fn is_missing(self) -> bool
        ensures { result ≡ (self.modelled && is_none self.size) }
    {
        self.modelled && self.size.is_none()
    }
}

/// What is known of a parameter: whether the model of its device is, and its range.
#[derive(Clone, Copy)]
pub struct KnownParameter {
    pub modelled: bool,
    pub range: Option<Range>,
}

impl KnownParameter {
    /// Whether the model is known, and doesn't have the parameter.
    pub fn is_unknown(self) -> bool
        ensures { result ≡ (self.modelled && is_none self.range) }
    {
        self.modelled && self.range.is_none()
    }

    /// Whether a value is out of the range of the parameter, where it is known.
    pub fn excludes(self, value: u32) -> bool
        ensures { result ≡ is_outside self.range value }
    {
        match self.range {
            Some(range) => value < range.min || range.max < value,
            None => false,
        }
    }
}
