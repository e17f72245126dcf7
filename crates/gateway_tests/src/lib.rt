// Tests of what is printed for an input, in a crate of their own so that the gateway is not proved twice.
#![tactic(auto)]

#[cfg(test)]
mod gives;
#[cfg(test)]
mod pieces;
#[cfg(test)]
mod polls;
mod recorder;
#[cfg(test)]
mod refusals;
