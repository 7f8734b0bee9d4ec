// A number of steps of a caller's run in one call: by value, and of the run record that the caller lends. The task is read once, and its questions, the
// program's and the position's are asked once; what they showed holds after every step.
ghost use Rattle.std.specs.Prelude.{◌≡◌, OnErr};
ghost use Rattle.step.specs.Head.{over};
ghost use Rattle.step.specs.Perform.{run_step};
ghost use Rattle.step.specs.Ready.{Lined, Open};
ghost use Rattle.steps.specs.Many.{steps_from, many_steps, answer_as, taken_as};
ghost use Rattle.steps.specs.Running.{advanced_as, asked_as, Admitted};

use step::head::Head;
use step::held::HeldTask;
use step::perform::ask;
use step::position::{Frame, Position};
use step::possible::possible;
use task::program::{check_program, line_instruction};
use task::questions::Question;
use task::reading::read_task;
use task::refusal::Refusal;

// The most steps of one call.
const MOST: u16 = 4096;

// What a call answers: how many steps were made, and the refusal that ended it, if one did.
#[derive(Clone, Copy, Debug, PartialEq, Eq)]
pub struct StepsAnswer {
    pub made: u16,
    pub refusal: Option<Refusal>,
}

// A call's answer, and the position after the last step made, after a refusal too.
#[derive(Clone, Copy, Debug, PartialEq, Eq)]
pub struct StepsTaken {
    pub answer: StepsAnswer,
    pub position: Position,
}

// One step at a position with a frame: question 14, those of the instruction on the top frame's line, and the head after it. `frames` are the position's,
// the top one being the head's, whatever stands in its slot; there the frame that the move leaves behind is put.
fn advance(
    task: HeldTask,
    program: &[u8],
    head: Head,
    frames: &mut [Frame; 16],
) -> Result<Head, Question>
    requires { Open task.index (over head frames.old) × Lined task.index program.now }
    ensures step { advanced_as frames.new result
        ≡ run_step task.entry.bytes.now task.entry.index task.entry.offsets.now program.now (over head frames.old) }
    ensures refused { OnErr result (frames.new ≡ frames.old) }
{
    if task.index.bounds.steps <= head.steps {
        return Err(Question::StepBound);
    }
    let w = line_instruction(task.index, program, head.procedure, head.line);
    let facts = ask(task, head, w)?;
    // The frame below the top one, at depth - 2; with one frame the value read is not used.
    let below = frames[(head.depth as usize + 14) % 16];
    let next = head.moved(task.bytes, task.index, below, facts, w);
    frames[head.depth as usize - 1] = head.left_behind(next.depth);
    Ok(next)
}

// At most so many steps from a possible position, the task and the program having passed.
fn run(task: HeldTask, program: &[u8], wanted: u16, first: Position) -> StepsTaken
    requires { Admitted task.bytes.now task.index task.offsets.now program.now first }
    ensures { taken_as result ≡ steps_from task.entry.bytes.now program.now wanted 0 first }
{
    let mut head = Head::of(first);
    let mut frames = first.frames;
    let mut refusal = None;
    for _ in 0..wanted {
        if head.depth == 0 {
            break;
        }
        match advance(task, program, head, &mut frames) {
            Ok(next) => head = next,
            Err(question) => {
                refusal = Some(question.at(head.steps as usize));
                break;
            }
        }
    }
    StepsTaken {
        answer: StepsAnswer {
            made: head.steps - first.steps,
            refusal,
        },
        position: head.over(frames),
    }
}

// The questions up to 31, and then the steps.
fn asked_steps(
    task: &[u8],
    program: &[u8],
    count: u64,
    position: Position,
) -> Result<StepsTaken, Refusal>
    ensures { asked_as position result ≡ many_steps task.now program.now count position }
{
    let layout = read_task(task)?;
    check_program(layout.index, &layout.presets, program)?;
    if !possible(layout.index, position) {
        return Err(Question::RunImpossible.at(0));
    }
    let wanted = count.min(u64::from(MOST)) as u16;
    Ok(run(HeldTask::new(task, &layout), program, wanted, position))
}

// Advances a run by a number of instructions, at most 4,096: the answer, and the position after the last one that was run.
#[tactic(auto, unfolding(crate::specs::Many::taken_to, crate::specs::Running::asked_as))]
pub fn many_steps(task: &[u8], program: &[u8], count: u64, position: Position) -> StepsTaken
    ensures { taken_as result ≡ many_steps task.now program.now count position }
{
    match asked_steps(task, program, count, position) {
        Ok(taken) => taken,
        // No step is made, and the position is as it was.
        Err(refusal) => StepsTaken {
            answer: StepsAnswer {
                made: 0,
                refusal: Some(refusal),
            },
            position,
        },
    }
}

// Advances the caller's own run record by a number of instructions, at most 4,096: the answer. The record then has the position after the last one
// that was run, after a refusal too.
pub fn many_steps_in_place(
    task: &[u8],
    program: &[u8],
    count: u64,
    run: &mut Position,
) -> StepsAnswer
    ensures { record { answer = answer_as result; position = run.new }
        ≡ many_steps task.now program.now count run.old }
{
    let taken = many_steps(task, program, count, *run);
    *run = taken.position;
    taken.answer
}
