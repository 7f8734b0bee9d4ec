// The six functions of include/planning_program.h, exported. Each says again what the function of `capi` with its name says, and calls it. This crate is
// built as the static library that C and Rust link, so no other stands on it.
#![tactic(auto)]

ghost use Rattle.std.specs.Prelude.{◌≡◌};
ghost use Rattle.task.specs.Reading.{read_task};
ghost use Rattle.step.specs.Single.{single_step};
ghost use Rattle.steps.specs.Many.{many_steps};
ghost use Rattle.late_case.specs.Late.{add_verdict, added_buffer};
ghost use Rattle.checker.specs.Check.{check};
ghost use Rattle.checker.specs.Write.{write};
ghost use Rattle.capi.specs.Case.{given_case};
ghost use Rattle.capi.specs.Packed.{packed, packed_steps};

use step::position::Position;

// A task's verdict.
#[unsafe(no_mangle)]
pub extern "C" fn pp_check_task(task: &[u8]) -> u64
    ensures { result ≡ packed (read_task task.now).verdict }
{
    capi::pp_check_task(task)
}

// A plan's verdict for a task, and the buffer with the program.
#[unsafe(no_mangle)]
pub extern "C" fn pp_check_plan(task: &[u8], plan: &[u8], program: &mut [u8]) -> u64
    ensures { (result ≡ packed (check task.now plan.now program.old).verdict)
        × (program.new ≡ (check task.now plan.now program.old).buffer) }
{
    capi::pp_check_plan(task, plan, program)
}

// A program's verdict for a task, and the buffer with the plan.
#[unsafe(no_mangle)]
pub extern "C" fn pp_write_plan(task: &[u8], program: &[u8], plan: &mut [u8]) -> u64
    ensures { (result ≡ packed (write task.now program.now plan.old).verdict)
        × (plan.new ≡ (write task.now program.now plan.old).buffer) }
{
    capi::pp_write_plan(task, program, plan)
}

// One instruction of a caller's run.
#[unsafe(no_mangle)]
pub extern "C" fn pp_step(task: &[u8], program: &[u8], run: &mut Position) -> u64
    ensures { (result ≡ packed (single_step task.now program.now run.old).verdict)
        × (run.new ≡ (single_step task.now program.now run.old).position) }
{
    capi::pp_step(task, program, run)
}

// A number of instructions of a caller's run, at most 4,096.
#[unsafe(no_mangle)]
pub extern "C" fn pp_steps(task: &[u8], program: &[u8], count: u64, run: &mut Position) -> u64
    ensures { (result ≡ packed_steps (many_steps task.now program.now count run.old).answer)
        × (run.new ≡ (many_steps task.now program.now count run.old).position) }
{
    capi::pp_steps(task, program, count, run)
}

// A case more in the task that the buffer's first `given` bytes are, under a run that is only read.
#[unsafe(no_mangle)]
pub extern "C" fn pp_add_case(
    buffer: &mut [u8],
    given: usize,
    start: u64,
    positive: u64,
    negative: u64,
    run: &Position,
) -> u64
    ensures { (result ≡ packed (add_verdict buffer.old given (given_case start positive negative) run.now))
        × (buffer.new ≡ added_buffer buffer.old given (given_case start positive negative) run.now) }
{
    capi::pp_add_case(buffer, given, start, positive, negative, run)
}
