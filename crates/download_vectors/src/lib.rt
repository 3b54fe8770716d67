//! Worked examples of the downloader and its reservations, as tests: what no call of the program shows.
#![tactic(auto)]

#[cfg(test)]
mod downloads;
#[cfg(test)]
mod examples;
#[cfg(test)]
mod reservations;
