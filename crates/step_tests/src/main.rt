// Runs stored positions through the single step of a run and through the call for a number of steps, adds stored cases to tasks, and writes what they
// answer.
//
// The input is a run of records. Kind 0: text, written as it is. Kind 65535: a program's length (2 bytes), the program and a task; the writer
// answers, and if it accepts, as many single steps as its plan has are made from the first case's start, each behind the plan's own step, and one
// call more. Kind 65534: how many calls (2 bytes), for how many steps each asks (8 bytes), and then a position (44 bytes: facts 8, steps 2, case 1,
// depth 1, sixteen frames of procedure and line), a program and a task as above; the calls are made, each from the position that the one before
// left. Kind 65533: how many steps (2 bytes), a length, a start and the two sets of a goal (8 bytes each), and then a position, a program and a buffer; the
// case is added to the task of that length in the buffer, and if that is accepted, so many single steps are made on the longer task. Any other kind k: a
// position, a program and a task; k single steps are made, each from the position that the one before left. After each step or call its number, its value,
// after a call the number of steps made, and the whole position are written; after the call for a late case its number, its value and the whole buffer.
#![tactic(auto)]

ghost use Rattle.std.specs.Prelude.{◌≤◌, length};

use checker::write::write_plan;
use late_case::late::add_case;
use records::numbers::{eight_at, two_at};
use std::{array, io};
use step::head::Head;
use step::position::{Frame, Position};
use step::single::single_step;
use steps::many::many_steps;
use task::facts::Literals;
use task::index::Case;
use task::instruction::{Line, Proc};
use task::reading::read_task;
use test_requests::{answer_all, read_body, there, write_answer, write_bytes};

// The kind of a run beside the writer's plan.
const RUN: u16 = 65535;

// The kind of calls for a number of steps.
const CALLS: u16 = 65534;

// The kind of a late case.
const LATE: u16 = 65533;

// The bytes of a step's record.
const STEP: usize = 9;

// The bytes of the longest plan that a run is made beside: 100 steps, and the closing record.
const PLAN: usize = 100 * STEP + 4;

// Behind a count of 2 bytes so many units of a size, and what follows them, if they are all there.
fn counted(bytes: &[u8], size: usize) -> Option<(&[u8], &[u8])>
    requires { size ≤ 8 }
{
    let (count, rest) = bytes.split_first_chunk::<2>()?;
    rest.split_at_checked(size * (u16::from_le_bytes(*count) as usize))
}

// The position that the first 44 bytes are.
fn position_of(bytes: &[u8]) -> Position
    requires { 44 ≤ length bytes.now }
{
    Position {
        facts: eight_at(bytes, 0),
        steps: two_at(bytes, 8),
        case: bytes[10],
        depth: bytes[11],
        frames: array::from_fn(|k| Frame {
            procedure: Proc(bytes[12 + 2 * k]),
            line: Line(bytes[13 + 2 * k]),
        }),
    }
}

// A run of a program: its task, and how far it is.
#[derive(Clone, Copy, Debug, PartialEq, Eq)]
struct Run<'a> {
    task: &'a [u8],
    program: &'a [u8],
    position: Position,
}

impl<'a> Run<'a> {
    // A position, a program and a task, as a request has them.
    fn of(bytes: &'a [u8]) -> Option<Run<'a>> {
        let (position, files) = bytes.split_at_checked(44)?;
        let (program, task) = counted(files, 1)?;
        Some(Run {
            task,
            program,
            position: position_of(position),
        })
    }

    fn write_position(&self, rt: &impl Print) -> io::Result<()> {
        let position = self.position;
        print!(rt;
            "; facts {} steps {} case {} depth {};",
            position.facts, position.steps, position.case, position.depth
        )?;
        for frame in position.frames {
            print!(rt; " {},{}", frame.procedure.0, frame.line.0)?;
        }
        println!(rt)
    }

    // Makes one step, and writes its answer and the position after it.
    fn step(&mut self, rt: &impl Print) -> io::Result<()> {
        match single_step(self.task, self.program, self.position) {
            Ok(Some(next)) => {
                self.position = next;
                print!(rt; "0 1")?;
            }
            // The run is finished.
            Ok(None) => print!(rt; "0 0")?,
            Err(refusal) => print!(rt; "{refusal}")?,
        }
        self.write_position(rt)
    }

    fn steps(&mut self, rt: &impl Print, count: u16) -> io::Result<()> {
        for _ in 0..count {
            self.step(rt)?;
        }
        Ok(())
    }

    // Makes one call for a number of steps, and writes its answer and the position after it.
    fn call(&mut self, rt: &impl Print, count: u64) -> io::Result<()> {
        let taken = many_steps(self.task, self.program, count, self.position);
        self.position = taken.position;
        let made = taken.answer.made;
        match taken.answer.refusal {
            None => print!(rt; "0 {made}")?,
            Some(refusal) => print!(rt; "{refusal}")?,
        }
        print!(rt; " made {made}")?;
        self.write_position(rt)
    }
}

// So many single steps from the position of a request.
fn answer_steps(rt: &impl Print, count: u16, bytes: &[u8]) -> io::Result<()> {
    let Some(mut run) = Run::of(bytes) else {
        return Ok(());
    };
    run.steps(rt, count)
}

// The calls of a request, each for a number of steps.
fn answer_calls(rt: &impl Print, bytes: &[u8]) -> io::Result<()> {
    let Some((counts, rest)) = counted(bytes, 8) else {
        return Ok(());
    };
    let Some(mut run) = Run::of(rest) else {
        return Ok(());
    };
    for count in counts.chunks_exact(8) {
        run.call(rt, eight_at(count, 0))?;
    }
    Ok(())
}

// Adds a case under the run of a request, writes the answer and the buffer, and goes on with the run.
fn answer_late(rt: &impl Print, bytes: &mut [u8]) -> io::Result<()> {
    let Some((head, files)) = bytes.split_at_mut_checked(80) else {
        return Ok(());
    };
    let Some((program, buffer)) = files.split_at_mut_checked(two_at(head, 78) as usize) else {
        return Ok(());
    };
    let case = Case {
        start: eight_at(head, 10),
        goal: Literals {
            positive: eight_at(head, 18),
            negative: eight_at(head, 26),
        },
    };
    let position = position_of(&head[34..]);
    let answer = add_case(buffer, eight_at(head, 2) as usize, case, position);
    write_answer(rt, answer)?;
    write_bytes(rt, buffer)?;
    let Ok(size) = answer else {
        return Ok(());
    };
    let Some(task) = buffer.get(..size) else {
        return Ok(());
    };
    let mut run = Run {
        task,
        program,
        position,
    };
    run.steps(rt, two_at(head, 0))
}

// The first case's start, given where its record is; in a task that passes it is there.
#[tactic(auto, unfolding(step::specs::Head::starting_head))]
fn first_position(task: &[u8], first: usize) -> Option<Position> {
    if !there(task, first, 28) {
        return None;
    }
    Some(Head::starting(task, first).over([Frame::default(); 16]))
}

// The run of a program beside the plan that the writer gives, to the finish and one call beyond.
fn answer_run(rt: &impl Print, bytes: &[u8]) -> io::Result<()> {
    let Some((program, task)) = counted(bytes, 1) else {
        return Ok(());
    };
    let mut plan = [0; PLAN];
    let answer = write_plan(task, program, &mut plan);
    print!(rt; "writer ")?;
    write_answer(rt, answer)?;
    println!(rt)?;
    let Ok(steps) = answer else {
        return Ok(());
    };
    // Where the writer says yes, the task passes.
    let Ok(layout) = read_task(task) else {
        return Ok(());
    };
    let Some(position) = first_position(task, layout.index.first) else {
        return Ok(());
    };
    let mut run = Run {
        task,
        program,
        position,
    };
    // Each step's line and its instruction's three bytes.
    for record in plan.chunks_exact(STEP).take(steps) {
        print!(rt;
            "{},{} {} {} {}: ",
            record[4], record[5], record[6], record[7], record[8]
        )?;
        run.step(rt)?;
    }
    if run.position.case == layout.index.cases {
        print!(rt; "finished: ")?;
    } else {
        print!(rt; "not finished: ")?;
    }
    run.step(rt)
}

// Answers a record.
fn answer_body(rt: &impl Print, kind: u16, body: &mut [u8]) -> io::Result<()> {
    match kind {
        0 => rt.write_all(body),
        RUN => answer_run(rt, body),
        CALLS => answer_calls(rt, body),
        LATE => answer_late(rt, body),
        _ => answer_steps(rt, kind, body),
    }
}

fn main(rt: HostRuntime) -> io::Result<()> {
    let mut space = [0u8; 65536];
    answer_all(&mut rt.reader(), |input, kind, size| {
        answer_body(&rt, kind, read_body(input, &mut space, size))?;
        Ok(true)
    })
}
