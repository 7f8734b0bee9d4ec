// A program's own questions: its length, its lines and its presets.
ghost use Rattle.std.specs.Prelude.{◌≡◌, ◌+◌, ◌*◌, ◌≤◌, true, length};
ghost use Rattle.task.specs.First.{first_no};
ghost use Rattle.task.specs.Verdict.{unit_verdict};
ghost use Rattle.task.specs.Program.{line_offset, instruction_on, is_instruction, line_allowed, preset_held, program_verdict};

use crate::bounds::{Bounds, line_count};
use crate::index::Index;
use crate::instruction::{Instruction, Line, Proc, Triple, decodes, spelled, triple_at};
use crate::questions::Question;
use crate::refusal::Refusal;
use crate::search::first_no;
use records::numbers::byte_at;

// Where a line of a procedure begins in a program.
pub fn line_offset(b: Bounds, procedure: Proc, line: Line) -> usize
    ensures { result ≡ line_offset b procedure line }
{
    3 * (procedure.0 as usize * (b.last as usize + 1) + line.0 as usize)
}

// The instruction on a line of a program that passes questions 25 and 26: its bytes are there, and spell one that is allowed.
pub fn line_instruction(index: Index, program: &[u8], procedure: Proc, line: Line) -> Instruction
    requires { (line_offset index.bounds procedure line + 3 ≤ length program.now)
        × (is_instruction (instruction_on index program.now procedure line) ≡ true) }
    ensures { instruction_on index program.now procedure line ≡ Some result }
{
    spelled(triple_at(program, line_offset(index.bounds, procedure, line)))
}

// Question 27 on one line; most lines are not preset.
fn preset_held(presets: &[u8], program: &[u8], k: usize) -> bool
    requires { 3 * k + 3 ≤ length program.now }
    ensures { result ≡ preset_held presets.now program.now k }
{
    let at = 3 * k;
    let op = byte_at(presets, at);
    if op == 0 {
        return true;
    }
    let preset = Triple {
        op,
        p: byte_at(presets, at + 1),
        q: byte_at(presets, at + 2),
    };
    preset == triple_at(program, at)
}

// How many lines stand before the first that question 26 turns down. The line's number in its procedure is counted along, which spares a division for each
// line; a closure that counts would leave the proof nothing of what it returned.
fn allowed_lines(index: Index, count: usize, program: &[u8]) -> usize
    requires { 3 * count ≤ length program.now }
    ensures { result ≡ first_no (line_allowed index program.now) count }
{
    let mut line = 0;
    for k in 0..count {
        let w = triple_at(program, 3 * k);
        if !decodes(index.bounds, index.actions, Line(line), w) {
            return k;
        }
        line = if line < index.bounds.last {
            line + 1
        } else {
            0
        };
    }
    count
}

// How many lines stand before the first that question 27 turns down.
fn held_presets(count: usize, presets: &[u8], program: &[u8]) -> usize
    requires { 3 * count ≤ length program.now }
    ensures { result ≡ first_no (preset_held presets.now program.now) count }
{
    first_no(count, |k| preset_held(presets, program, k))
}

// Questions 25 to 27, of a program for a task that passed with this index and these presets.
pub fn check_program(index: Index, presets: &[u8], program: &[u8]) -> Result<(), Refusal>
    ensures { unit_verdict result ≡ program_verdict index presets.now program.now }
{
    let count = line_count(index.bounds) as usize;
    if program.len() != 3 * count {
        return Err(Question::ProgramLength.at(0));
    }
    let allowed = allowed_lines(index, count, program);
    if allowed < count {
        return Err(Question::ProgramInstruction.at(3 * allowed));
    }
    let held = held_presets(count, presets, program);
    if held < count {
        return Err(Question::ProgramPreset.at(3 * held));
    }
    Ok(())
}
