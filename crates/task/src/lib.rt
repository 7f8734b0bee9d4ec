// A task file to its verdict and what it says, an instruction from its bytes, and a program's own questions.
#![tactic(auto)]

pub mod bounds;
pub mod facts;
pub mod index;
pub mod instruction;
mod kind;
pub mod program;
pub mod questions;
pub mod reading;
pub mod refusal;
mod search;
