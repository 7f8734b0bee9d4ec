// The entries for C and Rust, which the crate `capi_c` exports. Each returns its answer as one number: `pp_steps` number * 2^48 + steps made * 2^32 +
// place, with the place 0 where the number is 0, and the others number * 2^32 + value.
#![tactic(auto)]

ghost use Rattle.std.specs.Prelude.{◌≡◌, ◌^◌, ◌<◌};
ghost use Rattle.task.specs.Reading.{read_task};
ghost use Rattle.task.specs.Verdict.{value_of, verdict};
ghost use Rattle.step.specs.Single.{single_step};
ghost use Rattle.steps.specs.Many.{answer_as, many_steps};
ghost use Rattle.late_case.specs.Late.{add_verdict, added_buffer};
ghost use Rattle.checker.specs.Check.{check};
ghost use Rattle.checker.specs.Write.{write};
ghost use Rattle.capi.specs.Case.{given_case};
ghost use Rattle.capi.specs.Packed.{packed, place_of, packed_steps};

use checker::check::check_plan;
use checker::write::write_plan;
use late_case::late::add_case;
use step::position::Position;
use step::single::step_in_place;
use steps::many::{StepsAnswer, many_steps_in_place};
use task::facts::Literals;
use task::index::Case;
use task::reading::read_task;
use task::refusal::Refusal;

// An answer as one number.
#[tactic(auto, unfolding(crate::specs::Packed::packed))]
fn packed(answer: Result<usize, Refusal>) -> u64
    requires { value_of (verdict answer) < 2 ^ 32 }
    ensures { result ≡ packed (verdict answer) }
{
    match answer {
        Ok(value) => value as u64,
        Err(refusal) => u64::from(refusal.question.number()) * 0x1_0000_0000 + refusal.place as u64,
    }
}

// The answer to a number of steps as one number.
#[tactic(auto, unfolding(crate::specs::Packed::packed_steps))]
fn packed_steps(answer: StepsAnswer) -> u64
    requires { place_of (answer_as answer).verdict < 2 ^ 32 }
    ensures { result ≡ packed_steps (answer_as answer) }
{
    let made = u64::from(answer.made) * 0x1_0000_0000;
    match answer.refusal {
        None => made,
        Some(refusal) => {
            u64::from(refusal.question.number()) * 0x1_0000_0000_0000 + made + refusal.place as u64
        }
    }
}

// A task's verdict: questions 1 to 9.
pub fn pp_check_task(task: &[u8]) -> u64
    ensures { result ≡ packed (read_task task.now).verdict }
{
    packed(read_task(task).map(|_| 0))
}

// A plan's verdict for a task: questions 1 to 24. If it is accepted, its program fills the buffer's first bytes; a refusal leaves the
// buffer as it was.
pub fn pp_check_plan(task: &[u8], plan: &[u8], program: &mut [u8]) -> u64
    ensures { (result ≡ packed (check task.now plan.now program.old).verdict)
        × (program.new ≡ (check task.now plan.now program.old).buffer) }
{
    packed(check_plan(task, plan, program))
}

// A program's verdict for a task: questions 1 to 9 and 25 to 29, with 14 and 19 to 22 of each step. If it is accepted, its plan fills the
// buffer's first bytes; a refusal leaves the buffer as it was.
pub fn pp_write_plan(task: &[u8], program: &[u8], plan: &mut [u8]) -> u64
    ensures { (result ≡ packed (write task.now program.now plan.old).verdict)
        × (plan.new ≡ (write task.now program.now plan.old).buffer) }
{
    packed(write_plan(task, program, plan))
}

// One instruction of a caller's run: questions 1 to 9, 25 to 27 and 31, and then 14, 28 and 19 to 22. The run record then has the next
// position; after a refusal, and when the run is finished, it is as it was.
pub fn pp_step(task: &[u8], program: &[u8], run: &mut Position) -> u64
    ensures { (result ≡ packed (single_step task.now program.now run.old).verdict)
        × (run.new ≡ (single_step task.now program.now run.old).position) }
{
    packed(step_in_place(task, program, run))
}

// A number of instructions of a caller's run, at most 4,096: questions 1 to 9, 25 to 27 and 31 once, and then 14, 28 and 19 to 22 before each. It stops
// early at the finish and at a refusal. The run record then has the position after the last one that was run, after a refusal too.
pub fn pp_steps(task: &[u8], program: &[u8], count: u64, run: &mut Position) -> u64
    ensures { (result ≡ packed_steps (many_steps task.now program.now count run.old).answer)
        × (run.new ≡ (many_steps task.now program.now count run.old).position) }
{
    packed_steps(many_steps_in_place(task, program, count, run))
}

// Adds a case to the task that the buffer's first `given` bytes are, under a run that is only read: questions 1 to 9, 31 to 34, and 6 of the new sets. A
// length above the buffer's means all of it. If it is accepted, the buffer begins with the longer task, whose length is the value, and later bytes keep
// their value; a refusal leaves the buffer as it was.
pub fn pp_add_case(
    buffer: &mut [u8],
    given: usize,
    start: u64,
    positive: u64,
    negative: u64,
    run: &Position,
) -> u64
    ensures { (result ≡ packed (add_verdict buffer.old given (given_case start positive negative) run.now))
        × (buffer.new ≡ added_buffer buffer.old given (given_case start positive negative) run.now) }
{
    let goal = Literals { positive, negative };
    packed(add_case(buffer, given, Case { start, goal }, *run))
}
