//! Group objects.

/// A group object: the raw address of its device, and its number there.
#[derive(Clone, Copy, PartialEq, Eq, Hash)]
pub struct GroupObject {
    pub device: u16,
    pub number: u8,
}
