// Adapters that pass a part of the list, by numbers or up to its first None. Take and Skip hold alike fields, and stay types of
// their own: a port keeps the names of its source, and each type is what carries its rule.
#![tactic(auto)]

pub mod fuse;
pub mod refusal;
pub mod skip;
pub mod step_by;
pub mod take;
