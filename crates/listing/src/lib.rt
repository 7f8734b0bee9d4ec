// What the program prints: a verdict and, of an accepted plan, the listing of its program.
#![tactic(auto)]

pub mod listing;
mod page;
