//! The catalogue of device models.

mod model;
mod models;
mod refused;

pub use model::{INLINE, Model, ModelField, ModelObject, NamedModel};
pub use models::Catalogue;
pub use refused::CatRefused;
