//! Individual and group addresses (ISO/IEC 14543-3-2, network layer).

ghost use Rattle.std.specs.Prelude.{◌≡◌, ◌/◌, ◌%◌, ◌<◌, ◌==◌};
ghost use Rattle.std.specs.List.{list_any};

/// The individual address of a device: area in the upper 4 bits, then line in 4, then device in 8.
#[derive(Clone, Copy, Debug, PartialEq, Eq, PartialOrd, Ord)]
pub struct IndAddr {
    pub raw: u16,
}

impl IndAddr {
    /// The area, 0 to 15.
    pub fn area(&self) -> u8
        ensures value { result ≡ self.now.raw / 4096 }
    {
        (self.raw >> 12) as u8
    }

    /// The line in its area, 0 to 15.
    pub fn line(&self) -> u8
        ensures value { result ≡ self.now.raw / 256 % 16 }
    {
        (self.raw >> 8 & 0x0F) as u8
    }

    /// The device on its line, 0 to 255.
    pub fn device(&self) -> u8
        ensures value { result ≡ self.now.raw % 256 }
    {
        (self.raw & 0xFF) as u8
    }

    /// Whether it is one of these.
    pub fn is_among(self, devices: &[IndAddr]) -> bool
        ensures { result ≡ list_any (λ d. d.raw == self.raw) devices.now }
    {
        devices.iter().any(|device| device.raw == self.raw)
    }
}

/// A group address: main group in the upper 5 bits, then middle group in 3, then sub group in 8.
#[derive(Clone, Copy, PartialEq, Eq, PartialOrd, Ord)]
pub struct GroupAddr {
    pub raw: u16,
}
