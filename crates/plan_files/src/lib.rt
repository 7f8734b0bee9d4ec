// A task and a plan in the working folder's files `task.bin` and `plan.bin`, and the report that is printed on them.
#![tactic(auto)]

ghost use Rattle.std.specs.Prelude.{◌≡◌, min, ◌≤◌, length};
ghost use Rattle.task.specs.Reading.{read_task};
ghost use Rattle.task.specs.Verdict.{verdict};
ghost use Rattle.listing.specs.Listing.{filled};
ghost use Rattle.plan_files.specs.Files.{check_files, printed};

use checker::check::check_plan;
use listing::listing::report;
use std::io::Read;
use std::rt::Files;
use std::{fs, io};
use task::index::Index;
use task::questions::Question;
use task::reading::read_task;
use task::refusal::Refusal;

// The most bytes that a file may have.
const LONGEST: usize = 65536;

// Question 30, and then the checker's.
#[tactic(auto, unfolding(crate::specs::Files::check_files))]
fn check_bytes(task: &[u8], plan: &[u8], program: &mut [u8]) -> Result<usize, Refusal>
    ensures { record { verdict = verdict result; buffer = program.new }
        ≡ check_files task.now plan.now program.old }
{
    if LONGEST < task.len() || LONGEST < plan.len() {
        return Err(Question::FileTooLong.at(LONGEST));
    }
    check_plan(task, plan, program)
}

// A task's index; where the task is turned down, that of no task.
#[tactic(auto, unfolding(task::specs::Reading::reading, task::specs::Reading::accepted, task::specs::Reading::refused, task::specs::Reading::no_layout, task::specs::Reading::no_index))]
fn index_of(task: &[u8]) -> Index
    ensures { result ≡ (read_task task.now).layout.index }
{
    read_task(task).map_or(Index::default(), |layout| layout.index)
}

// Writes what is printed on a task's and a plan's bytes at the start of a text, and answers how many bytes it wrote: all, where the text has 4,096.
#[tactic(auto, using(crate::proofs::Laws::Printed::all_printed), unfolding(crate::specs::Files::printed))]
pub fn print_check(task: &[u8], plan: &[u8], text: &mut [u8]) -> usize
    ensures { (result ≡ min (length (printed task.now plan.now)) (length text.old))
        × (text.new ≡ filled (printed task.now plan.now) text.old)
        × (4096 ≤ length text.old → result ≡ length (printed task.now plan.now)) }
{
    let mut program = [0u8; 768];
    let answer = check_bytes(task, plan, &mut program);
    let numbers = answer.map_err(|no| (no.question.number(), no.place));
    report(numbers, index_of(task), &program, text)
}

// Reads until the space is full, the file ends or a read fails: what was read. Only the file knows how many reads that takes, so this is no `for`; and
// std's `read_to_end` wants a heap.
fn read_full<'a>(file: &mut impl Read, space: &'a mut [u8]) -> &'a [u8]
    ensures { length result.now ≤ length space.old }
{
    let mut size = 0;
    while size < space.len() {
        let read = file.read(&mut space[size..]).unwrap_or(0);
        if read == 0 {
            break;
        }
        size += read;
    }
    &space[..size]
}

// Reads a file from its start: as much of it as the space has room for, and nothing where it cannot be opened.
fn read_file<'a>(rt: &impl Files, path: &str, space: &'a mut [u8]) -> &'a [u8]
    ensures { length result.now ≤ length space.old }
{
    match fs::open(rt, path) {
        Ok(mut file) => read_full(&mut file, space),
        Err(_) => &[],
    }
}

// Prints the report, all of it.
fn write_report(rt: &impl Print, task: &[u8], plan: &[u8]) -> io::Result<()> {
    let mut text = [0u8; 4096];
    let size = print_check(task, plan, &mut text);
    rt.write_all(&text[..size])
}

// Checks the plan in the working folder and prints the report.
pub fn check_files(rt: &(impl Files + Print)) -> io::Result<()> {
    // Room for the longest file, and for one byte that shows that a file is longer.
    let mut task = [0u8; LONGEST + 1];
    let mut plan = [0u8; LONGEST + 1];
    let task = read_file(rt, "task.bin", &mut task);
    let plan = read_file(rt, "plan.bin", &mut plan);
    write_report(rt, task, plan)
}
