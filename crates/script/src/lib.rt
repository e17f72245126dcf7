// Scripts: rows of bytes that say what a source answers, poll by poll.
#![tactic(auto)]

mod check;
mod command;
pub mod refusal;
pub mod script;
#[cfg(test)]
mod tests;
