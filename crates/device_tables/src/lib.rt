//! What the tables of a running device say of a group telegram (ISO/IEC 14543-3-1, application layer; the tables and the group
//! objects after System B): which objects take its value, and which one answers it. All is total: a table is any octets.
#![tactic(auto)]

mod index;
pub mod laws;
mod links;
mod objects;
mod search;
mod steps;
mod table;
mod telegram;
mod value;

pub use index::TableIndex;
pub use knx_model::{GroupAddr, GroupService, Image, LongValue, NoMemory, ObjSpec, Octets, Value};
pub use links::linked;
pub use objects::{Acts, Objects};
pub use steps::Steps;
pub use table::object_in_table;
pub use telegram::acts;
pub use value::{takes_form, zero_value};
