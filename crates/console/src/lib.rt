// The ends of the programs: standard input as bytes, and text on standard output.
#![tactic(auto)]

pub mod input;
mod line_buffer;
pub mod output;
