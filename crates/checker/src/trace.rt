// The writer's trace, the top frame at each step of a run, in one byte each. From it and the program come the plan's records.
ghost use Rattle.std.specs.Prelude.{◌≡◌, [], ◌∷◌, ◌++◌, ◌≤◌, ◌<◌, length, map};
ghost use Rattle.records.specs.Record.{record_bytes, closing};
ghost use Rattle.task.specs.Verdict.{verdict};
ghost use Rattle.checker.specs.Answer.{accepted};
ghost use Rattle.checker.specs.Plan.{kind_of};
ghost use Rattle.checker.specs.Trace.{frame_of, SpelledAt, lines_with, record_on, Spelled, records_after};
ghost use Rattle.checker.specs.Write.{on_finish};

use crate::check::put;
use crate::kind::PlanKind;
use crate::plan::{Step, kind_of};
use step::position::Frame;
use task::bounds::Bounds;
use task::instruction::{Line, Proc, Triple, put_triple, spelled, triple_at};
use task::program::line_offset;
use task::questions::Question;
use task::refusal::Refusal;

// A frame in one byte, its line's number plus 32 times that of its procedure: so the trace of 4,096 steps has as many bytes of stack.
pub(crate) fn byte_of(frame: Frame) -> u8
    requires { (frame.procedure.0 < 8) × (frame.line.0 < 32) }
    ensures { frame_of result ≡ frame }
{
    32 * frame.procedure.0 + frame.line.0
}

// The frame of such a byte.
#[tactic(auto, unfolding(crate::specs::Trace::frame_of))]
fn frame_of(byte: u8) -> Frame
    ensures { result ≡ frame_of byte }
{
    Frame {
        procedure: Proc(byte / 32),
        line: Line(byte % 32),
    }
}

// The record of a step at a frame, by the three bytes of its instruction.
#[tactic(auto, unfolding(records::specs::Record::record_bytes, records::specs::Numbers::number_bytes))]
fn step_record(step: Step, frame: Frame, w: Triple) -> [u8; 9]
    ensures { result ≡ record_bytes (kind_of step) (frame.procedure.0 ∷ frame.line.0 ∷ w.op ∷ w.p ∷ w.q ∷ []) }
{
    let kind = kind_of(step);
    let Frame { procedure, line } = frame;
    [5, 0, kind as u8, 0, procedure.0, line.0, w.op, w.p, w.q]
}

// The record of the next step, by its frame: a line that `lines` does not hold is written, and added there; any other is repeated.
fn next_record(bounds: Bounds, program: &[u8], lines: &mut [u8; 768], frame: Frame) -> [u8; 9]
    requires { SpelledAt bounds program.now frame × (length program.now ≤ 768) }
    ensures { (lines.new ≡ lines_with bounds program.now lines.old frame)
        × (result ≡ record_on bounds program.now lines.old frame) }
{
    let offset = line_offset(bounds, frame.procedure, frame.line);
    let w = triple_at(program, offset);
    let instruction = spelled(w);
    if lines[offset] != 0 {
        return step_record(Step::Repeat(instruction), frame, w);
    }
    put_triple(lines, offset, w);
    step_record(Step::Write(instruction), frame, w)
}

// What follows a run that ended all cases, given its trace and the preset lines: question 29, and the plan. The records of its steps and the closing
// one fill the buffer's first bytes.
pub(crate) fn write_records(
    bounds: Bounds,
    program: &[u8],
    trace: &[u8],
    presets: [u8; 768],
    buffer: &mut [u8],
) -> Result<usize, Refusal>
    requires { (length trace.now ≤ 4096)
        × (length program.now ≤ 768)
        × Spelled bounds program.now (map frame_of trace.now) (length trace.now) }
    ensures { record { verdict = verdict result; buffer = buffer.new }
        ≡ on_finish
        buffer.old
        (accepted
        (length trace.now)
        (records_after bounds program.now presets (map frame_of trace.now) (length trace.now) ++ closing)) }
{
    let count = trace.len();
    let size = 9 * count + 4;
    if buffer.len() < size {
        return Err(Question::PlanNoRoom.at(size));
    }
    let mut lines = presets;
    for (k, &byte) in trace.iter().enumerate() {
        let record = next_record(bounds, program, &mut lines, frame_of(byte));
        put(buffer, 9 * k, &record);
    }
    put(buffer, 9 * count, &[0, 0, PlanKind::Closing as u8, 0]);
    Ok(count)
}
