// A late case: one more case for a task while a run of it is open.
#![tactic(auto)]

pub mod late;
mod put;
