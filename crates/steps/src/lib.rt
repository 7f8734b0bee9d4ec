// A number of steps of a caller's run in one call.
#![tactic(auto)]

pub mod many;
