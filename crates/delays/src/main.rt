#![tactic(auto)]

mod callbacks;
mod pipeline;

fn main() {}
