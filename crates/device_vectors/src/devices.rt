//! The simulated device, step by step: services on a bench, frames of a line, cuts and worn memory.

mod deeds;
mod frames;
mod groups;
mod services;
mod writes;
