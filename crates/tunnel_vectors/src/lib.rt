//! Worked examples of both ends of the tunnel, as tests: what no call of the program shows.
#![tactic(auto)]

#[cfg(test)]
mod channels;
#[cfg(test)]
mod gateways;
