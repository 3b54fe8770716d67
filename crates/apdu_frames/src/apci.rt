//! The codes that name the services (ISO/IEC 14543-3-1, application layer, APCI).

/// A_GroupValue_Read.
pub const GROUP_VALUE_READ: u16 = 0x000;
/// A_GroupValue_Response; its low six bits are a short value.
pub const GROUP_VALUE_RESPONSE: u16 = 0x040;
/// A_GroupValue_Write; its low six bits are a short value.
pub const GROUP_VALUE_WRITE: u16 = 0x080;
/// A_IndividualAddress_Write.
pub const INDIVIDUAL_ADDRESS_WRITE: u16 = 0x0C0;
/// A_IndividualAddress_Read.
pub const INDIVIDUAL_ADDRESS_READ: u16 = 0x100;
/// A_IndividualAddress_Response.
pub const INDIVIDUAL_ADDRESS_RESPONSE: u16 = 0x140;
/// A_Memory_Read; its low six bits are the count.
pub const MEMORY_READ: u16 = 0x200;
/// A_Memory_Response; its low six bits are the count.
pub const MEMORY_RESPONSE: u16 = 0x240;
/// A_Memory_Write; its low six bits are the count.
pub const MEMORY_WRITE: u16 = 0x280;
/// A_DeviceDescriptor_Read; its low six bits are the type.
pub const DEVICE_DESCRIPTOR_READ: u16 = 0x300;
/// A_DeviceDescriptor_Response; its low six bits are the type.
pub const DEVICE_DESCRIPTOR_RESPONSE: u16 = 0x340;
/// A_PropertyValue_Read.
pub const PROPERTY_VALUE_READ: u16 = 0x3D5;
/// A_PropertyValue_Response.
pub const PROPERTY_VALUE_RESPONSE: u16 = 0x3D6;
/// A_PropertyValue_Write.
pub const PROPERTY_VALUE_WRITE: u16 = 0x3D7;
