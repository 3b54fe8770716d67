//! The turn cell, the telegram router, the hub and the program between threads, as tests: what their contracts can't say is that the calls get on. They stand in one
//! crate, so that no library is proved twice; so do the calls of the program whose report a test looks at.
#![tactic(auto)]

#[cfg(test)]
mod cells;
#[cfg(test)]
mod downloads;
#[cfg(test)]
mod gate;
#[cfg(test)]
mod line;
#[cfg(test)]
mod many;
#[cfg(test)]
mod program;
#[cfg(test)]
mod relays;
#[cfg(test)]
mod routers;
#[cfg(test)]
mod runs;
#[cfg(test)]
mod works;
