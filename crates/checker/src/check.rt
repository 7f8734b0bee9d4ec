// The checker: a plan's records one after the other, each asked questions 11 to 24, and the program that its steps write.
// Kind 16 writes a line and runs it, 17 repeats it; 5 closes the file.
ghost use Rattle.std.specs.Prelude.{◌≡◌, ◌≢◌, true, ℕ, ◌+◌, ◌≤◌, ◌<◌, List, length, None, Some, Ok, IfOk, OnOk, MatchResult};
ghost use Rattle.records.specs.Loop.{stop};
ghost use Rattle.task.specs.Instruction.{encode};
ghost use Rattle.task.specs.Reading.{read_task, reading};
ghost use Rattle.task.specs.Verdict.{number, verdict};
ghost use Rattle.step.specs.Head.{Stands};
ghost use Rattle.step.specs.Ready.{Room};
ghost use Rattle.step.specs.Moved.{performed_as};
ghost use Rattle.step.specs.declared.position.Frame.{Frame};
ghost use Rattle.step.specs.declared.position.Position.{Position};
ghost use Rattle.checker.specs.Check.{line_fits, on_move, step_turn, close_turn, turn_of, follow, check};
ghost use Rattle.checker.specs.Kind.{kind_number};
ghost use Rattle.checker.specs.Outcome.{StepReady, ReadyAt, state, shape_no, line_turn, read_turn, followed_by};
ghost use Rattle.checker.specs.Plan.{length_fits, instruction_of};
ghost use Rattle.checker.specs.Trace.{with_bytes};

use crate::kind::PlanKind;
use crate::plan::{Step, instruction_of, step_of};
use records::reader::plan_record;
use records::record::Record;
use step::head::Head;
use step::held::HeldTask;
use step::perform::ask;
use step::position::Frame;
use task::bounds::line_count;
use task::index::Index;
use task::instruction::{Line, Proc, Triple, decodes_for, put_triple, spelled, triple_at};
use task::program::line_offset;
use task::questions::Question;
use task::reading::read_task;
use task::refusal::Refusal;

// What stands at an offset of the plan where questions 11 to 17 say yes: the closing record, with the offset after it; or a step of the top
// frame's line, with its instruction's three bytes and the next record's offset.
#[derive(Clone, Copy, Debug, PartialEq, Eq)]
pub enum Read {
    Closing { next: usize },
    Ready { step: Step, w: Triple, next: usize },
}

// Question 13.
#[tactic(auto, unfolding(crate::specs::Plan::length_fits))]
fn length_fits(kind: PlanKind, size: usize) -> bool
    ensures { result ≡ length_fits (kind_number kind) size }
{
    match kind {
        PlanKind::Closing => size == 0,
        PlanKind::Write | PlanKind::Repeat => size == 5,
    }
}

// Questions 12 to 14 of a record, given whether a step is left: its kind, if none says no.
#[tactic(auto, unfolding(crate::specs::Outcome::shape_no, crate::specs::Plan::is_kind, crate::specs::Plan::length_fits))]
fn ask_kind(found: Record, left: bool) -> Result<PlanKind, Question>
    ensures { MatchResult result
        (λ kind. (found.kind ≡ kind_number kind) × (shape_no found.kind found.length left ≡ None))
        (λ question. shape_no found.kind found.length left ≡ Some (number question)) }
{
    let Ok(kind) = PlanKind::try_from(found.kind) else {
        return Err(Question::PlanRecordKind);
    };
    if !length_fits(kind, found.length) {
        return Err(Question::PlanRecordLength);
    }
    if kind != PlanKind::Closing && !left {
        return Err(Question::StepBound);
    }
    Ok(kind)
}

// Question 18, given the three bytes on the step's line and those of its instruction.
fn line_fits(held: Triple, step: Step, w: Triple) -> bool
    requires { w ≡ encode (instruction_of step) }
    ensures { result ≡ line_fits held step }
{
    match step {
        Step::Write(_) => held.op == 0,
        Step::Repeat(_) => held == w,
    }
}

// The closing record at an offset: questions 23 and 24.
fn close(index: Index, plan: &[u8], at: usize, head: Head, next: usize) -> Result<usize, Refusal>
    ensures { (program : List ℕ) (callers : List Frame) (s : Position) →
        Stands head callers s
        → stop (followed_by result program) ≡ close_turn index plan.now (state at s program) next }
{
    if head.case != index.cases {
        return Err(Question::CaseOpen.at(at));
    }
    if next != plan.len() {
        return Err(Question::PlanNotEnded.at(next));
    }
    Ok(head.steps as usize)
}

// A step's record: questions 15 to 17.
fn read_step(
    task: HeldTask,
    plan: &[u8],
    head: Head,
    kind: PlanKind,
    found: Record,
) -> Result<Read, Question>
    requires step { kind_number kind ≢ 5 }
    requires left { head.steps < task.index.bounds.steps }
    requires there { found.body + 5 ≤ length plan.now }
    ensures turn { (program : List ℕ) (at : ℕ) (callers : List Frame) (s : Position) →
        Stands head callers s
        → read_turn task.entry.bytes.now task.entry.index task.entry.offsets.now plan.now (state at s program) result
        ≡ step_turn
        task.entry.bytes.now
        task.entry.index
        task.entry.offsets.now
        (state at s program)
        plan.now
        (kind_number kind)
        found.body
        found.next }
    ensures ready { IfOk result (ReadyAt task.entry.index head) }
{
    let procedure = Proc(plan[found.body]);
    let line = Line(plan[found.body + 1]);
    let triple = triple_at(plan, found.body + 2);
    if !decodes_for(
        task.index.bounds,
        task.index.actions,
        procedure,
        line,
        triple,
    ) {
        return Err(Question::StepInstruction);
    }
    if task.index.cases <= head.case {
        return Err(Question::StepAfterFinish);
    }
    if (Frame { procedure, line }) != head.top() {
        return Err(Question::StepElsewhere);
    }
    Ok(Read::Ready {
        step: step_of(kind, spelled(triple)),
        w: triple,
        next: found.next,
    })
}

// One record: questions 11 to 17.
fn read_record(task: HeldTask, plan: &[u8], at: usize, head: Head) -> Result<Read, Question>
    ensures turn { (program : List ℕ) (callers : List Frame) (s : Position) →
        Stands head callers s
        → read_turn task.entry.bytes.now task.entry.index task.entry.offsets.now plan.now (state at s program) result
        ≡ turn_of task.entry.bytes.now task.entry.index task.entry.offsets.now plan.now (state at s program) }
    ensures ready { IfOk result (ReadyAt task.entry.index head) }
{
    let Some(found) = plan_record(plan, at) else {
        return Err(Question::PlanRecordCut);
    };
    let kind = ask_kind(found, head.steps < task.index.bounds.steps)?;
    if kind == PlanKind::Closing {
        return Ok(Read::Closing { next: found.next });
    }
    read_step(task, plan, head, kind, found)
}

// A step of the top frame's line, with its instruction's three bytes: questions 18 to 22. A write fills its line.
fn take_step(
    task: HeldTask,
    head: Head,
    step: Step,
    w: Triple,
    program: &mut [u8; 768],
) -> Result<u64, Question>
    requires { StepReady task.index head step w }
    ensures turn { (at next : ℕ) (callers : List Frame) (s : Position) →
        Stands head callers s
        → on_move at next program.new (performed_as task.entry.bytes.now task.entry.index s (instruction_of step) result)
        ≡ line_turn task.entry.bytes.now task.entry.index task.entry.offsets.now (state at s program.old) next step }
    ensures room { OnOk result (Room task.entry.index head.depth (instruction_of step)) }
{
    let offset = line_offset(task.index.bounds, head.procedure, head.line);
    let held = triple_at(program, offset);
    if !line_fits(held, step, w) {
        return Err(Question::StepLine);
    }
    // A repeat's line has these three bytes already.
    put_triple(program, offset, w);
    ask(task, head, instruction_of(step))
}

// The whole plan: how many steps it has, if no question says no. `program`, which has the preset lines at first, has then those too that the
// steps wrote. `callers` has, at each depth, the frame that a pop comes back to; it is stored at every step, which costs less than to ask for a call.
fn follow(task: HeldTask, plan: &[u8], program: &mut [u8; 768]) -> Result<usize, Refusal>
    requires { reading (Ok (record { index = task.index; offsets = task.offsets.now; presets = program.old })) ≡ read_task task.bytes.now }
    ensures { followed_by result program.new
        ≡ follow
        task.entry.bytes.now
        (record { index = task.entry.index; offsets = task.entry.offsets.now; presets = program.old })
        plan.now }
{
    let mut at = 0;
    let mut head = Head::starting(task.bytes, task.index.first);
    let mut callers = [head.caller(); 17];
    loop {
        let read = read_record(task, plan, at, head).map_err(|question| question.at(at))?;
        match read {
            Read::Closing { next } => return close(task.index, plan, at, head, next),
            Read::Ready { step, w, next } => {
                let answer = take_step(task, head, step, w, program);
                let facts = answer.map_err(|question| question.at(at))?;
                let depth = head.depth as usize;
                callers[depth] = head.caller();
                let instruction = instruction_of(step);
                head = head.moved(
                    task.bytes,
                    task.index,
                    callers[depth - 1],
                    facts,
                    instruction,
                );
                at = next;
            }
        }
    }
}

// Puts other bytes at an offset of a buffer; the rest keeps its value.
pub(crate) fn put(buffer: &mut [u8], at: usize, others: &[u8])
    requires { at + length others.now ≤ length buffer.old }
    ensures { buffer.new ≡ with_bytes buffer.old at (length others.now) others.now }
{
    buffer[at..at + others.len()].copy_from_slice(others);
}

// Checks a plan against a task that passes, with its preset lines in `program`: question 10, and then those of the plan.
fn check_passed(
    task: HeldTask,
    mut program: [u8; 768],
    plan: &[u8],
    buffer: &mut [u8],
) -> Result<usize, Refusal>
    requires { reading (Ok (record { index = task.index; offsets = task.offsets.now; presets = program })) ≡ read_task task.bytes.now }
    ensures { record { verdict = verdict result; buffer = buffer.new } ≡ check task.entry.bytes.now plan.now buffer.old }
{
    let size = 3 * line_count(task.index.bounds) as usize;
    if buffer.len() < size {
        return Err(Question::ProgramNoRoom.at(0));
    }
    let steps = follow(task, plan, &mut program)?;
    put(buffer, 0, &program[..size]);
    Ok(steps)
}

// Checks a plan against a task: the number of steps, if the plan is accepted. Then the program, the preset lines and those that the plan
// wrote, fills the first bytes of the buffer; else the buffer is left as it was.
pub fn check_plan(task: &[u8], plan: &[u8], buffer: &mut [u8]) -> Result<usize, Refusal>
    ensures { record { verdict = verdict result; buffer = buffer.new } ≡ check task.now plan.now buffer.old }
{
    let layout = read_task(task)?;
    check_passed(HeldTask::new(task, &layout), layout.presets, plan, buffer)
}
