//! Vectors from outside and worked examples of frames, connections, tables and plans, as tests: what no call of the program shows. They stand in
//! few crates, so that no library is proved twice.
#![tactic(auto)]

#[cfg(test)]
mod connections;
#[cfg(test)]
mod field_words;
#[cfg(test)]
mod load_events;
#[cfg(test)]
mod parameters;
#[cfg(test)]
mod plans;
#[cfg(test)]
mod requests;
#[cfg(test)]
mod telegrams;
