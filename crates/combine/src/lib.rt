// Adapters that join streams, or pair items with their numbers. Each says by clauses of its own what its fields hold after
// a poll.
#![tactic(auto)]

pub mod chain;
pub mod enumerate;
pub mod zip;
