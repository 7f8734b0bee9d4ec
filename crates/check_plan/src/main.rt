// Checks the plan in `plan.bin` against the task in `task.bin`, two files of the working folder, and prints the report.
#![tactic(auto)]

use std::io;

fn main(rt: HostRuntime) -> io::Result<()> {
    plan_files::check_files(&rt)
}
