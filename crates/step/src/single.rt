// The single step of a caller's run: by value, and of the run record that the caller lends.
ghost use Rattle.std.specs.Prelude.{◌≡◌};
ghost use Rattle.task.specs.Verdict.{verdict};
ghost use Rattle.step.specs.Perform.{stepped};
ghost use Rattle.step.specs.Ready.{Lined};
ghost use Rattle.step.specs.Single.{step_once, single_step};

use crate::held::HeldTask;
use crate::perform::run_line;
use crate::position::Position;
use crate::possible::possible;
use task::program::check_program;
use task::questions::Question;
use task::reading::read_task;
use task::refusal::Refusal;

// The step of a task and a program that passed: question 31, the finish, question 14, one line.
fn step_once(
    task: HeldTask,
    program: &[u8],
    position: Position,
) -> Result<Option<Position>, Refusal>
    requires { Lined task.index program.now }
    ensures { stepped position result
        ≡ step_once task.entry.bytes.now task.entry.index task.entry.offsets.now program.now position }
{
    if !possible(task.index, position) {
        return Err(Question::RunImpossible.at(0));
    }
    if position.depth == 0 {
        return Ok(None);
    }
    let place = position.steps as usize;
    if task.index.bounds.steps <= position.steps {
        return Err(Question::StepBound.at(place));
    }
    let next = run_line(task, program, position).map_err(|question| question.at(place))?;
    Ok(Some(next))
}

// Advances a run by one instruction: the position after it, none for a finished run, or the first question that says no.
pub fn single_step(
    task: &[u8],
    program: &[u8],
    position: Position,
) -> Result<Option<Position>, Refusal>
    ensures { stepped position result ≡ single_step task.now program.now position }
{
    let layout = read_task(task)?;
    check_program(layout.index, &layout.presets, program)?;
    step_once(HeldTask::new(task, &layout), program, position)
}

// Advances the caller's own run record by one instruction: how many steps that made, 1, or 0 for a finished run. The record then has the next position;
// after a refusal, and when the run is finished, it is as it was.
pub fn step_in_place(task: &[u8], program: &[u8], run: &mut Position) -> Result<usize, Refusal>
    ensures { record { verdict = verdict result; position = run.new }
        ≡ single_step task.now program.now run.old }
{
    match single_step(task, program, *run)? {
        Some(next) => {
            *run = next;
            Ok(1)
        }
        None => Ok(0),
    }
}
