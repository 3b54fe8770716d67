//! What is asked for where an address is given.

/// What is asked for.
#[derive(Clone, Copy, Debug, Drop, PartialEq, Eq)]
pub enum Asked {
    /// All units in programming mode tell their addresses: A_IndividualAddress_Read.
    Read,
    /// A connection to the unit that has the wanted address: T_Connect.
    Connect,
    /// That connection ends: T_Disconnect.
    Disconnect,
    /// All units in programming mode take the wanted address: A_IndividualAddress_Write.
    Write,
}
