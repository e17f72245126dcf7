// Adapters that drop items by what a callback says. Filter and FilterMap hold alike fields, and stay types of their own: a
// port keeps the names of its source, and each type is what carries its rule.
#![tactic(auto)]

pub mod filter;
pub mod filter_map;
pub mod skip_while;
