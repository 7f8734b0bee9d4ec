// A late case: the record of one more case is put into the task in a caller's buffer, before the closing one, while a run of the task is open. The run is
// only read, and goes on with the longer task.
ghost use Rattle.std.specs.Prelude.{◌≡◌, ℕ};
ghost use Rattle.task.specs.Verdict.{Accepted, unit_verdict, verdict};
ghost use Rattle.late_case.specs.Late.{after_task, late_verdict, add_verdict, added_buffer};

use crate::put::put_case;
use step::position::Position;
use step::possible::possible;
use task::facts::case_consistent;
use task::index::{Case, Index};
use task::questions::Question;
use task::reading::read_task;
use task::refusal::Refusal;

// Questions 31 to 34, and 6 of the new sets, of a task that passed; `spare` bytes stand behind it.
#[tactic(auto, unfolding(crate::specs::Late::late_verdict, crate::specs::Late::asked, crate::specs::Late::after_task))]
fn check_case(index: Index, run: Position, spare: usize, case: Case) -> Result<(), Refusal>
    ensures { (longer : ℕ) → after_task (unit_verdict result) (Accepted longer) ≡ late_verdict index run spare case longer }
{
    if !possible(index, run) {
        return Err(Question::RunImpossible.at(0));
    }
    if run.depth == 0 {
        return Err(Question::RunFinished.at(0));
    }
    if 32 <= index.cases {
        return Err(Question::CasesFull.at(0));
    }
    if spare < 28 {
        return Err(Question::CaseNoRoom.at(0));
    }
    if !case_consistent(index.bounds.facts, case) {
        return Err(Question::TaskFacts.at(0));
    }
    Ok(())
}

// Adds a case, under an open run, to the task that the buffer's first `given` bytes are; a length above the buffer's means all of it. The answer is the
// task's new length. Bytes beyond that keep their value, and a refusal changes nothing.
pub fn add_case(
    buffer: &mut [u8],
    given: usize,
    case: Case,
    run: Position,
) -> Result<usize, Refusal>
    ensures { (verdict result ≡ add_verdict buffer.old given case run)
        × (buffer.new ≡ added_buffer buffer.old given case run) }
{
    let size = given.min(buffer.len());
    let index = read_task(&buffer[..size])?.index;
    check_case(index, run, buffer.len() - size, case)?;
    // The closing record is the task's last 4 bytes.
    put_case(buffer, size - 4, case);
    Ok(size + 28)
}
