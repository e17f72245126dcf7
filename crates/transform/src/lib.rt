// Adapters that turn each item into one answer.
// Each is a type of its own, though all hold a stream and a callback: a port keeps the names of its source, and each type is what
// carries its rule. So each says by clauses of its own what its stream and its callback hold after a poll.
#![tactic(auto)]

pub mod map;
pub mod map_while;
pub mod scan;
pub mod take_while;
