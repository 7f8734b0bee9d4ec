// The writer: a program run on all the cases, and the plan of its steps. Kind 17 repeats a line that is preset or was run earlier, 16
// writes any other; 5 closes the file.
ghost use Rattle.std.specs.Prelude.{◌≡◌, Ok};
ghost use Rattle.task.specs.Program.{program_verdict};
ghost use Rattle.task.specs.Reading.{read_task, reading};
ghost use Rattle.task.specs.Verdict.{Accepted, verdict};
ghost use Rattle.checker.specs.Write.{run, on_finish, write};

use crate::trace::{byte_of, write_records};
use step::head::Head;
use step::held::HeldTask;
use step::perform::ask;
use task::program::{check_program, line_instruction};
use task::questions::Question;
use task::reading::read_task;
use task::refusal::Refusal;

// The whole run, and its plan: `trace` has the byte of each step's frame, and `callers`, at each depth, the frame that a pop comes back to, as in
// the checker.
fn run(
    task: HeldTask,
    presets: [u8; 768],
    program: &[u8],
    buffer: &mut [u8],
) -> Result<usize, Refusal>
    requires read { reading (Ok (record { index = task.index; offsets = task.offsets.now; presets = presets })) ≡ read_task task.bytes.now }
    requires passes { program_verdict task.index presets program.now ≡ Accepted 0 }
    ensures { record { verdict = verdict result; buffer = buffer.new }
        ≡ on_finish
        buffer.old
        (run
        task.entry.bytes.now
        (record { index = task.entry.index; offsets = task.entry.offsets.now; presets = presets })
        program.now) }
{
    let mut head = Head::starting(task.bytes, task.index.first);
    let mut callers = [head.caller(); 17];
    let mut trace = [0u8; 4096];
    while head.case < task.index.cases {
        let steps = head.steps as usize;
        if task.index.bounds.steps <= head.steps {
            return Err(Question::StepBound.at(steps));
        }
        let w = line_instruction(task.index, program, head.procedure, head.line);
        let facts = ask(task, head, w).map_err(|question| question.at(steps))?;
        trace[steps] = byte_of(head.top());
        let depth = head.depth as usize;
        callers[depth] = head.caller();
        head = head.moved(task.bytes, task.index, callers[depth - 1], facts, w);
    }
    write_records(
        task.index.bounds,
        program,
        &trace[..head.steps as usize],
        presets,
        buffer,
    )
}

// Writes the plan of a program: the number of steps, if the program ends every case in its goal. Then the plan fills the first bytes of the
// buffer; else the buffer is left as it was.
pub fn write_plan(task: &[u8], program: &[u8], buffer: &mut [u8]) -> Result<usize, Refusal>
    ensures { record { verdict = verdict result; buffer = buffer.new } ≡ write task.now program.now buffer.old }
{
    let layout = read_task(task)?;
    check_program(layout.index, &layout.presets, program)?;
    let held = HeldTask::new(task, &layout);
    run(held, layout.presets, program, buffer)
}
