// The program in an empty folder: both files count as empty.
#![tactic(auto)]

use std::io;

fn main(rt: HostRuntime) -> io::Result<()> {
    plan_files::check_files(&rt)
}
