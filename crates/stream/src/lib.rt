// What a stream, a future and a callback are, by their meanings; every other crate is built on this one.
#![tactic(auto)]

pub mod callback;
pub mod future;
pub mod poll;
pub mod stream;
