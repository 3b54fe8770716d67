//! The simulated device of a line (ISO/IEC 14543-3-2, 3-1 and 3-4, transport and application layer, management, after System B): four loadable
//! objects with their memory, which outlive a power cut, its end of a numbered connection, its objects' values, and what each
//! frame does and is answered.
//!
//! ```
//! /// A blank device is connected and asked: it sends its acknowledgement, and then this answer.
//! fn answer(alloc: Global, connect: &Ldata, question: &Ldata) -> Result<Option<Ldata>, NoMemory> {
//!     let mut device = Device::blank(alloc, IndAddr { raw: 0x1105 })?;
//!     device.take(alloc, connect, 0)?;
//!     device.take(alloc, question, 20)?;
//!     let _acknowledgement = device.sends(20);
//!     Ok(device.sends(20))
//! }
//! ```
#![tactic(auto)]

mod answer;
mod brought;
mod device;
mod effect;
mod frames;
pub mod laws;
mod loadable;
mod memory_map;
mod non_volatile;
mod running;
mod sending;
mod served;
mod service;
mod telegram;
mod turns;
mod values;
mod wear;

pub use brought::Brought;
pub use device::Device;
pub use knx_model::{
    ApduOctets, FrameSupport, Image, IndAddr, Ldata, NoMemory, Octets, Sending, Took, Value,
    WriteKind,
};
pub use service::written_front;
