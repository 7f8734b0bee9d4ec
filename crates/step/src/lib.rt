// One instruction of a planning program at a position of its run, and the single step of a caller's run.
#![tactic(auto)]

pub mod effects;
pub mod facts;
pub mod head;
pub mod held;
pub mod perform;
pub mod position;
pub mod possible;
pub mod single;
