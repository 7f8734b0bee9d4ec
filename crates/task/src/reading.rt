// A task file to its verdict and what it says: its records one after the other, each asked questions 1 to 9.
ghost use Rattle.std.specs.Prelude.{◌≡◌, ℕ, ◌+◌, ◌≤◌, List, true, length, IfOk};
ghost use Rattle.task.specs.Kind.{kind_number, number_before};
ghost use Rattle.task.specs.Reading.{may_stand, length_fits, header_turn, action_turn, preset_turn, case_turn, on_record, no_layout, reading, read_task};
ghost use Rattle.task.specs.Bounds.{in_range};
ghost use Rattle.task.specs.Outcome.{progress, state, with_record, part_turned, turned, reading_of};
ghost use Rattle.task.specs.declared.kind.Kind.TheVariants.{Header};

use crate::bounds::{bounds_at, in_range};
use crate::facts::{case_consistent, pairs_before_fault};
use crate::index::{Index, Layout, case_body_at};
use crate::instruction::{Line, Proc, decodes_for, put_triple, triple_at};
use crate::kind::Kind;
use crate::program::line_offset;
use crate::questions::Question;
use crate::refusal::Refusal;
use records::record::{Record, record_at};

// How far the reading is: the next record's offset, the kind of the record before it, if there is one, and the index so far.
#[derive(Clone, Copy, Debug, PartialEq, Eq)]
pub struct Progress {
    pub at: usize,
    pub last: Option<Kind>,
    pub index: Index,
}

// Question 2.
#[tactic(auto, unfolding(crate::specs::Reading::may_stand, crate::specs::Reading::by_kind))]
fn may_stand(last: Option<Kind>, kind: Kind) -> bool
    ensures { result ≡ may_stand (number_before last) (kind_number kind) }
{
    match last {
        Some(Kind::Header) => kind == Kind::Action,
        Some(Kind::Action) => matches!(kind, Kind::Action | Kind::Preset | Kind::Case),
        Some(Kind::Preset) => matches!(kind, Kind::Preset | Kind::Case),
        Some(Kind::Case) => matches!(kind, Kind::Case | Kind::Closing),
        _ => kind == Kind::Header,
    }
}

// Question 3.
#[tactic(auto, unfolding(crate::specs::Reading::length_fits, crate::specs::Reading::by_kind))]
fn length_fits(kind: Kind, size: usize) -> bool
    ensures { result ≡ length_fits (kind_number kind) size }
{
    match kind {
        Kind::Header => size == 6,
        Kind::Action => (size <= 272) & (size % 32 == 16),
        Kind::Preset => size == 5,
        Kind::Case => size == 24,
        Kind::Closing => size == 0,
    }
}

// The bounds: question 5.
fn ask_header(task: &[u8], body: usize) -> Result<(), Question>
    requires { body + 6 ≤ length task.now }
    ensures { (p : Progress) (next : ℕ) (o q : List ℕ) →
        part_turned task.now (progress p) 1 body next result o q
        ≡ header_turn task.now (state (progress p) o q) body next }
{
    if in_range(bounds_at(task, body)) {
        return Ok(());
    }
    Err(Question::TaskBounds)
}

// An action: questions 4 and 6. Its offset is noted.
fn ask_action(
    task: &[u8],
    p: Progress,
    body: usize,
    size: usize,
    offsets: &mut [usize; 64],
) -> Result<(), Question>
    requires { body + size ≤ length task.now }
    ensures { (next : ℕ) (q : List ℕ) →
        part_turned task.now (progress p) 2 body next result offsets.new q
        ≡ action_turn task.now (state (progress p) offsets.old q) body size next }
{
    if 64 <= p.index.actions {
        return Err(Question::TaskTooMany);
    }
    let end = body + size;
    if pairs_before_fault(p.index.bounds.facts, &task[body..end]) != size / 16 {
        return Err(Question::TaskFacts);
    }
    offsets[p.index.actions as usize] = p.at;
    Ok(())
}

// A preset: questions 7 and 8. Its instruction is noted on its line.
fn ask_preset(
    task: &[u8],
    p: Progress,
    body: usize,
    presets: &mut [u8; 768],
) -> Result<(), Question>
    requires { (body + 5 ≤ length task.now) × (in_range p.index.bounds ≡ true) }
    ensures { (next : ℕ) (o : List ℕ) →
        part_turned task.now (progress p) 3 body next result o presets.new
        ≡ preset_turn task.now (state (progress p) o presets.old) body next }
{
    let procedure = Proc(task[body]);
    let line = Line(task[body + 1]);
    let triple = triple_at(task, body + 2);
    if !decodes_for(p.index.bounds, p.index.actions, procedure, line, triple) {
        return Err(Question::TaskPreset);
    }
    let offset = line_offset(p.index.bounds, procedure, line);
    if presets[offset] != 0 {
        return Err(Question::TaskPresetTwice);
    }
    put_triple(presets, offset, triple);
    Ok(())
}

// A case: questions 4 and 6.
fn ask_case(task: &[u8], p: Progress, body: usize) -> Result<(), Question>
    requires { body + 24 ≤ length task.now }
    ensures { (next : ℕ) (o q : List ℕ) →
        part_turned task.now (progress p) 4 body next result o q ≡ case_turn task.now (state (progress p) o q) body next }
{
    if 32 <= p.index.cases {
        return Err(Question::TaskTooMany);
    }
    if case_consistent(p.index.bounds.facts, case_body_at(task, body)) {
        return Ok(());
    }
    Err(Question::TaskFacts)
}

// Questions 2 to 8 of a record that is all there: its kind, if none says no. An action's offset and a preset's instruction are noted.
fn ask_record(
    task: &[u8],
    p: Progress,
    found: Record,
    offsets: &mut [usize; 64],
    presets: &mut [u8; 768],
) -> Result<Kind, Question>
    requires { (found.body + found.length ≤ length task.now)
        × (may_stand (number_before p.last) found.kind ≡ true → 2 ≤ found.kind → in_range p.index.bounds ≡ true) }
    ensures turn { turned task.now (progress p) found result offsets.new presets.new
        ≡ on_record task.now (state (progress p) offsets.old presets.old) (Some found) }
    ensures kind { IfOk result (λ kind. found.kind ≡ kind_number kind) }
{
    let Ok(kind) = Kind::try_from(found.kind) else {
        return Err(Question::TaskRecordKind);
    };
    if !may_stand(p.last, kind) {
        return Err(Question::TaskRecordKind);
    }
    if !length_fits(kind, found.length) {
        return Err(Question::TaskRecordLength);
    }
    let body = found.body;
    match kind {
        Kind::Header => ask_header(task, body)?,
        Kind::Action => ask_action(task, p, body, found.length, offsets)?,
        Kind::Preset => ask_preset(task, p, body, presets)?,
        Kind::Case => ask_case(task, p, body)?,
        Kind::Closing => {}
    }
    Ok(kind)
}

// The index with a record that no question turns down.
fn with_record(task: &[u8], mut index: Index, kind: Kind, at: usize, body: usize) -> Index
    requires { (kind ≡ Header → body + 6 ≤ length task.now) × (index.actions ≤ 64) × (index.cases ≤ 32) }
    ensures { result ≡ with_record task.now index (kind_number kind) at body }
{
    match kind {
        Kind::Header => {
            return Index {
                bounds: bounds_at(task, body),
                ..Index::default()
            };
        }
        Kind::Action => {
            index.actions += 1;
        }
        Kind::Case => {
            if index.cases == 0 {
                index.first = at;
            }
            index.cases += 1;
        }
        Kind::Preset | Kind::Closing => {}
    }
    index
}

// The records one after the other, until a question says no or the file is closed.
fn read_records(
    task: &[u8],
    offsets: &mut [usize; 64],
    presets: &mut [u8; 768],
) -> Result<Index, Refusal>
    requires { (offsets.old ≡ no_layout.offsets) × (presets.old ≡ no_layout.presets) }
    ensures { reading_of result offsets.new presets.new ≡ read_task task.now }
{
    let mut p = Progress {
        at: 0,
        last: None,
        index: Index::default(),
    };
    loop {
        let Some(record) = record_at(task, p.at) else {
            return Err(Question::TaskRecordCut.at(p.at));
        };
        let answer = ask_record(task, p, record, offsets, presets);
        let kind = answer.map_err(|question| question.at(p.at))?;
        if kind == Kind::Closing {
            if record.next != task.len() {
                return Err(Question::TaskNotEnded.at(record.next));
            }
            return Ok(p.index);
        }
        p = Progress {
            at: record.next,
            last: Some(kind),
            index: with_record(task, p.index, kind, p.at, record.body),
        };
    }
}

// A task file: where the task stands in it, or the first question that says no.
pub fn read_task(task: &[u8]) -> Result<Layout, Refusal>
    ensures { reading result ≡ read_task task.now }
{
    // It is filled in place.
    let mut layout = Layout::default();
    layout.index = read_records(task, &mut layout.offsets, &mut layout.presets)?;
    Ok(layout)
}
