// Streams to begin a pipeline with, and futures. Once and OnceFuture hold alike fields, and stay two types: a port keeps the
// names of its source, and each type is what carries its rule.
#![tactic(auto)]

pub mod delay_future;
pub mod first_future;
pub mod iter;
pub mod once;
pub mod once_future;
