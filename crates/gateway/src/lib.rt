// The work of the program `watts`: from the bytes of its input to the lines that it prints.
#![tactic(auto)]

pub mod display;
mod input;
pub mod line;
pub mod printer;
pub mod refusal;
pub mod report;
