// What a sink is, by its meaning, and the sink over a lent row.
#![tactic(auto)]

pub mod refusal;
pub mod row;
pub mod sink;
#[cfg(test)]
mod tests;
