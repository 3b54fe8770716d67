//! How many devices, objects and links a project has.

/// How many devices, objects and links a project has: the devices of its `device` lines, the objects of all devices, those of
/// their models too, and the links of all devices.
#[derive(Clone, Copy, Debug, PartialEq, Eq)]
pub struct Counts {
    pub devices: u32,
    pub objects: u32,
    pub links: u32,
}
