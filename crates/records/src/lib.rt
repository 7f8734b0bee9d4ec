// Records of a file: little-endian numbers at an offset, the record at an offset, and the plan's reader. Every function takes any slice and
// any offset, but for the two that read bytes known to be there.
#![tactic(auto)]

pub mod numbers;
pub mod reader;
pub mod record;
