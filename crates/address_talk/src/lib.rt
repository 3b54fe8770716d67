//! How an individual address is given (ISO/IEC 14543-3-1 and 3-5), as the record of the client's link tells it: what may be asked for when, what comes of it, and
//! how it ends.
#![tactic(auto)]

mod assigned;

pub use assigned::{AssignFault, Assigned};
