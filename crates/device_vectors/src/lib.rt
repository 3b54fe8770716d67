//! Worked examples of the simulated device, as tests: what no call of the program shows.
#![tactic(auto)]

#[cfg(test)]
mod devices;
#[cfg(test)]
mod examples;
