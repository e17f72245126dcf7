// What a consumer is, by its meaning, and the routine that runs every consumer.
#![tactic(auto)]

pub mod consumer;
pub mod run;
pub mod step;
