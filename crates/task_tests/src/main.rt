// Runs stored tasks and programs through the task crate and writes what it answers.
//
// The input is a run of records. Kind 0: text, written as it is. Kind 1: a task; its number and value are written. Kind 2: a task that
// passes; what its readers say is written. Kind 3: a program's length (2 bytes), the program and a task that passes; the
// program's number and value are written. Kind 4: a number of facts (1 byte) and an action's body; how many of its pairs stand before the
// first that fails question 6 is written. A task of kind 2 or 3 that does not pass counts as one
// with an empty layout.
#![tactic(auto)]

use std::io;
use task::bounds::Bounds;
use task::facts::{Literals, pairs_before_fault};
use task::index::{Layout, action_at, case_at, effect_at};
use task::program::check_program;
use task::reading::read_task;
use task::refusal::Refusal;
use test_requests::{answer_all, read_body, there, write_answer};

// A line of its own for an answer; a yes has the value 0.
fn write_verdict(rt: &impl Print, answer: Result<(), Refusal>) -> io::Result<()> {
    write_answer(rt, answer.map(|()| 0))?;
    println!(rt)
}

fn write_literals(rt: &impl Print, literals: Literals) -> io::Result<()> {
    print!(rt; " {} {}", literals.positive, literals.negative)
}

fn write_effect(rt: &impl Print, bytes: &[u8], at: usize, number: u16) -> io::Result<()> {
    if !there(bytes, at, 52 + 32 * (number as usize)) {
        return Ok(());
    }
    let effect = effect_at(bytes, at, number);
    print!(rt; "; where")?;
    write_literals(rt, effect.condition)?;
    print!(rt; " raises {} lowers {}", effect.raised, effect.lowered)
}

fn write_action(rt: &impl Print, bytes: &[u8], at: usize) -> io::Result<()> {
    if !there(bytes, at, 20) {
        return Ok(());
    }
    let action = action_at(bytes, at);
    print!(rt; "  action at {at} needs")?;
    write_literals(rt, action.precondition)?;
    for e in 0..action.effects {
        write_effect(rt, bytes, at, e)?;
    }
    println!(rt)
}

fn write_case(rt: &impl Print, bytes: &[u8], first: usize, number: u8) -> io::Result<()> {
    if !there(bytes, first, 28 + 28 * (number as usize)) {
        return Ok(());
    }
    let case = case_at(bytes, first, number);
    print!(rt; "  case from {} to", case.start)?;
    write_literals(rt, case.goal)?;
    println!(rt)
}

fn write_bounds(rt: &impl Print, b: Bounds) -> io::Result<()> {
    println!(rt;
        "facts {} procedures {} last {} stack {} steps {}",
        b.facts, b.procedures, b.last, b.stack, b.steps
    )
}

// The first twelve bytes of the preset program.
fn write_presets(rt: &impl Print, presets: &[u8; 768]) -> io::Result<()> {
    print!(rt; "  presets")?;
    for byte in &presets[..12] {
        print!(rt; " {byte}")?;
    }
    println!(rt)
}

// Where a task stands; a task that does not pass has an empty layout. This and the four below stay calls, so that a request has on the stack only
// what it needs.
#[inline(never)]
fn layout_of(task: &[u8]) -> Layout {
    read_task(task).unwrap_or_default()
}

// A task's number and value.
#[inline(never)]
fn answer_verdict(rt: &impl Print, bytes: &[u8]) -> io::Result<()> {
    write_verdict(rt, read_task(bytes).map(|_| ()))
}

// What the readers say of a task.
#[inline(never)]
fn answer_task(rt: &impl Print, bytes: &[u8]) -> io::Result<()> {
    let layout = layout_of(bytes);
    let index = layout.index;
    write_bounds(rt, index.bounds)?;
    for &at in layout.offsets.iter().take(index.actions as usize) {
        write_action(rt, bytes, at)?;
    }
    for c in 0..index.cases {
        write_case(rt, bytes, index.first, c)?;
    }
    write_presets(rt, &layout.presets)
}

#[inline(never)]
fn answer_program(rt: &impl Print, bytes: &[u8]) -> io::Result<()> {
    let Some((size, files)) = bytes.split_first_chunk::<2>() else {
        return Ok(());
    };
    let Some((program, task)) = files.split_at_checked(u16::from_le_bytes(*size) as usize) else {
        return Ok(());
    };
    let layout = layout_of(task);
    write_verdict(rt, check_program(layout.index, &layout.presets, program))
}

#[inline(never)]
fn answer_pairs(rt: &impl Print, bytes: &[u8]) -> io::Result<()> {
    let Some((facts, body)) = bytes.split_first() else {
        return Ok(());
    };
    println!(rt; "{}", pairs_before_fault(*facts, body))
}

// Answers a record.
fn answer_body(rt: &impl Print, kind: u16, body: &[u8]) -> io::Result<()> {
    match kind {
        0 => rt.write_all(body),
        1 => answer_verdict(rt, body),
        2 => answer_task(rt, body),
        3 => answer_program(rt, body),
        _ => answer_pairs(rt, body),
    }
}

fn main(rt: HostRuntime) -> io::Result<()> {
    let mut space = [0u8; 65536];
    answer_all(&mut rt.reader(), |input, kind, size| {
        answer_body(&rt, kind, read_body(input, &mut space, size))?;
        Ok(true)
    })
}

#[cfg(test)]
mod tests {
    use task::questions::Question;

    // The numbers of the documents and of the C header.
    #[test]
    fn a_question_has_its_number(rt: HostRuntime) {
        for (question, number) in [
            (Question::TaskRecordCut, 1),
            (Question::TaskRecordKind, 2),
            (Question::TaskRecordLength, 3),
            (Question::TaskTooMany, 4),
            (Question::TaskBounds, 5),
            (Question::TaskFacts, 6),
            (Question::TaskPreset, 7),
            (Question::TaskPresetTwice, 8),
            (Question::TaskNotEnded, 9),
            (Question::ProgramNoRoom, 10),
            (Question::PlanRecordCut, 11),
            (Question::PlanRecordKind, 12),
            (Question::PlanRecordLength, 13),
            (Question::StepBound, 14),
            (Question::StepInstruction, 15),
            (Question::StepAfterFinish, 16),
            (Question::StepElsewhere, 17),
            (Question::StepLine, 18),
            (Question::Precondition, 19),
            (Question::Clash, 20),
            (Question::StackFull, 21),
            (Question::Goal, 22),
            (Question::CaseOpen, 23),
            (Question::PlanNotEnded, 24),
            (Question::ProgramLength, 25),
            (Question::ProgramInstruction, 26),
            (Question::ProgramPreset, 27),
            (Question::LineEmpty, 28),
            (Question::PlanNoRoom, 29),
            (Question::FileTooLong, 30),
            (Question::RunImpossible, 31),
            (Question::RunFinished, 32),
            (Question::CasesFull, 33),
            (Question::CaseNoRoom, 34),
        ] {
            assert_eq!(rt; question as u8, number, "{question:?}");
        }
    }
}
