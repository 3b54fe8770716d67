//! Vectors and worked examples of discovery, as tests.
#![tactic(auto)]

#[cfg(test)]
mod blocks;
#[cfg(test)]
mod gateways;
#[cfg(test)]
mod searches;
