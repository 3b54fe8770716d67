//! The compiler: from the statements of a project to the tables and the parameter memory of a device.
//!
//! ```
//! /// The address table of a device of a project without a catalogue; None where the text is refused, or memory is wanting.
//! fn address_table(alloc: Global, text: &[u8], device: IndAddr) -> Option<Octets> {
//!     let catalogue = Catalogue::empty(alloc);
//!     let project = read_project(alloc, text).ok()?;
//!     let checked = check(alloc, &project, &catalogue).ok()?;
//!     let image = compile(alloc, &checked, device).ok()?;
//!     Some(image.addr)
//! }
//! ```
#![tactic(auto)]

mod compiler;
mod devices;
mod drafts;
mod images;
mod laws;
mod links;
mod models;
mod objects;
mod parameters;
mod pieces;
mod tables;

pub use compiler::{compile, compile_all};
pub use images::Images;
pub use knx_model::{Config, Image, LinkSpec, NoMemory, ObjSpec, ParamValue};
pub use laws::{links_said, one_image};
