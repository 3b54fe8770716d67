//! Worked examples of individual addresses, as tests.
#![tactic(auto)]

#[cfg(test)]
mod faults;
#[cfg(test)]
mod given;
#[cfg(test)]
mod texts;
