// Adapters over streams of futures and streams of streams. Flatten and FlatMap hold alike fields and poll by one function;
// they stay two types: a port keeps the names and fields of its source, and each type is what carries its rule.
#![tactic(auto)]

pub mod flat_map;
pub mod flatten;
mod inner;
pub mod then;
