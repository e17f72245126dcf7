// What is proved of all pipelines together.
#![tactic(auto)]

pub mod poll_both;
pub mod shown;
