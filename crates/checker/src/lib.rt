// The checker: a task and a plan to a verdict, and the program that the plan writes. The writer: a task and a program to a verdict, and the
// program's plan.
#![tactic(auto)]

pub mod check;
mod kind;
pub mod plan;
mod trace;
pub mod write;
