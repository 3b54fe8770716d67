//! Runs of a line by one worker, over a gateway with its device and over fixed datagrams.
#![tactic(auto)]

#[cfg(test)]
mod gateway;
#[cfg(test)]
mod tests;
