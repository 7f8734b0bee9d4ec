// The program on the double-click task with its fourth record of kind 16: the plan is refused.
#![tactic(auto)]

use std::io;

fn main(rt: HostRuntime) -> io::Result<()> {
    plan_files::check_files(&rt)
}
