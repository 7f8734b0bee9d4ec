// The program on a plan of 65,537 bytes, and no task: question 30 comes first.
#![tactic(auto)]

use std::io;

fn main(rt: HostRuntime) -> io::Result<()> {
    plan_files::check_files(&rt)
}
