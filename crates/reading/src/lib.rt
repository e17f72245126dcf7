// Readings: signed 32-bit numbers that come as pairs of 16-bit words.
#![tactic(auto)]

pub mod fault;
pub mod join;
pub mod layer;
pub mod readings;
#[cfg(test)]
mod tests;
