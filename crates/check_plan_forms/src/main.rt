// The program on a plan whose listing has every form of line, two procedures, a preset line and numbers of two digits.
#![tactic(auto)]

use std::io;

fn main(rt: HostRuntime) -> io::Result<()> {
    plan_files::check_files(&rt)
}
