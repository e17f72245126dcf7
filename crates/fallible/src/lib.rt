// Consumers of results, which break off at the first fault.
#![tactic(auto)]

mod offer;
pub mod try_collect;
