//! Worked examples of the network, the simulated line and its script, as tests: what no call of the program shows. They stand in few crates, so
//! that no library is proved twice.
#![tactic(auto)]

#[cfg(test)]
mod arrivals;
#[cfg(test)]
mod fixed;
#[cfg(test)]
mod lines;
#[cfg(test)]
mod scripts;
