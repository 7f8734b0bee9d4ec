// One line of a program at a position, by value: its questions, and its move.
ghost use Rattle.std.specs.Prelude.{◌≡◌, ℕ, ◌+◌, ◌*◌, ◌≤◌, ◌<◌, length};
ghost use Rattle.task.specs.Index.{action_at};
ghost use Rattle.task.specs.declared.index.Index.{Index};
ghost use Rattle.task.specs.declared.instruction.Instruction.{Instruction};
ghost use Rattle.task.specs.declared.instruction.Instruction.TheVariants.{Act};
ghost use Rattle.step.specs.Moved.{Keeps, performed_as, line_as};
ghost use Rattle.step.specs.Ready.{Runs, Known};
ghost use Rattle.step.specs.declared.position.Position.{Position};
ghost use Rattle.step.specs.Perform.{act, perform, run_line};

use crate::effects::changes_of;
use crate::facts::holds;
use crate::head::Head;
use crate::held::HeldTask;
use crate::position::{Position, frame_at};
use task::index::{action_at, case_at};
use task::instruction::Instruction;
use task::program::line_instruction;
use task::questions::Question;

// Act: question 19; then the facts raised, and those before that are not lowered.
fn act(task: &[u8], at: usize, facts: u64) -> Result<u64, Question>
    requires { at + (20 + 32 * (action_at task.now at).effects) ≤ length task.now }
    ensures { (i : Index) (s : Position) (action : ℕ) →
        s.facts ≡ facts → performed_as task.now i s (Act action) result ≡ act task.now at s }
{
    let action = action_at(task, at);
    if !holds(facts, action.precondition) {
        return Err(Question::Precondition);
    }
    let changes = changes_of(task, at, action.effects, facts);
    Ok(changes.raised | (facts & !changes.lowered))
}

// Questions 19 to 22 of an instruction, and 28 of an empty one, at the positions with the facts, the case and the depth of this head: the first that
// says no, or the facts after an action; any other instruction leaves them.
pub fn ask(task: HeldTask, head: Head, w: Instruction) -> Result<u64, Question>
    requires { (head.case < task.index.cases) × Known task.index w }
    ensures { ((s : Position) →
        s.facts ≡ head.facts
        → s.case ≡ head.case
        → s.depth ≡ head.depth
        → performed_as task.entry.bytes.now task.entry.index s w result
        ≡ perform task.entry.bytes.now task.entry.index task.entry.offsets.now s w)
        × (((action : ℕ) → w ≡ Act action → ⊥) → Keeps head.facts result) }
{
    match w {
        Instruction::Empty => Err(Question::LineEmpty),
        Instruction::Act(action) => act(task.bytes, task.offsets[action as usize], head.facts),
        Instruction::Goto(_, _) => Ok(head.facts),
        Instruction::Call(_) => {
            if task.index.bounds.stack <= head.depth {
                return Err(Question::StackFull);
            }
            Ok(head.facts)
        }
        Instruction::End => {
            if 1 < head.depth {
                return Ok(head.facts);
            }
            let last = case_at(task.bytes, task.index.first, head.case);
            if !holds(head.facts, last.goal) {
                return Err(Question::Goal);
            }
            Ok(head.facts)
        }
    }
}

// One line of a program, at a position: the questions of the instruction there, and then the move of the position's head.
pub(crate) fn run_line(
    task: HeldTask,
    program: &[u8],
    position: Position,
) -> Result<Position, Question>
    requires { Runs task.index program.now position }
    ensures { line_as result
        ≡ run_line task.entry.bytes.now task.entry.index task.entry.offsets.now program.now position }
{
    let head = Head::of(position);
    let w = line_instruction(task.index, program, head.procedure, head.line);
    let facts = ask(task, head, w)?;
    let below = frame_at(position, position.depth - 1);
    let next = head.moved(task.bytes, task.index, below, facts, w);
    Ok(next.stored(head, position))
}
