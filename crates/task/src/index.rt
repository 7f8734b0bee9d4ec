// Where things stand in the file of a task that passes: its bounds, the places of its actions and cases, and its preset program;
// and the readers of its actions and cases.
ghost use Rattle.std.specs.Prelude.{◌≡◌, ◌+◌, ◌*◌, ◌≤◌, length};
ghost use Rattle.records.specs.Numbers.{u64_at};
ghost use Rattle.task.specs.Facts.{literals_at};
ghost use Rattle.task.specs.Index.{action_at, effect_at, case_at};

use crate::bounds::Bounds;
use crate::facts::{Literals, literals_at};
use records::numbers::{eight_at, two_at};

// The bounds, how many actions and cases there are, and the offset of the first case.
#[derive(Clone, Copy, Debug, Default, PartialEq, Eq)]
pub struct Index {
    pub bounds: Bounds,
    pub actions: u8,
    pub cases: u8,
    pub first: usize,
}

// Where a task stands in its file: its index, the offset of each action's record, and the preset program, which fills the first bytes.
#[derive(Clone, Copy, Debug, Default, PartialEq, Eq)]
pub struct Layout {
    pub index: Index,
    pub offsets: [usize; 64],
    pub presets: [u8; 768],
}

// What stands before an action's effects: its precondition, and how many effects there are.
#[derive(Clone, Copy, Debug, PartialEq, Eq)]
pub struct ActionFront {
    pub precondition: Literals,
    pub effects: u16,
}

// A conditional effect: where the condition holds, facts are raised and lowered.
#[derive(Clone, Copy, Debug, PartialEq, Eq)]
pub struct Effect {
    pub condition: Literals,
    pub raised: u64,
    pub lowered: u64,
}

// A case: the facts true at its start, and its goal.
#[derive(Clone, Copy, Debug, PartialEq, Eq)]
pub struct Case {
    pub start: u64,
    pub goal: Literals,
}

// What stands before the effects of the action whose record is at an offset; the record's head and the precondition are there.
pub fn action_at(task: &[u8], at: usize) -> ActionFront
    requires { at + 20 ≤ length task.now }
    ensures { result ≡ action_at task.now at }
{
    ActionFront {
        precondition: literals_at(task, at + 4),
        effects: two_at(task, at) / 32,
    }
}

// An effect of the action whose record is at an offset; the record goes on to the effect's end.
pub fn effect_at(task: &[u8], at: usize, number: u16) -> Effect
    requires { at + (52 + 32 * number) ≤ length task.now }
    ensures { result ≡ effect_at task.now at number }
{
    let from = 32 * (number as usize);
    let changes = literals_at(task, at + (36 + from));
    Effect {
        condition: literals_at(task, at + (20 + from)),
        raised: changes.positive,
        lowered: changes.negative,
    }
}

// The case whose 24 bytes start at an offset; they are all there.
pub(crate) fn case_body_at(task: &[u8], at: usize) -> Case
    requires { at + 24 ≤ length task.now }
    ensures { (result.start ≡ u64_at task.now at) × (result.goal ≡ literals_at task.now (at + 8)) }
{
    Case {
        start: eight_at(task, at),
        goal: literals_at(task, at + 8),
    }
}

// A case, given the offset of the first one; the cases go on to its end.
pub fn case_at(task: &[u8], first: usize, number: u8) -> Case
    requires { first + (28 + 28 * number) ≤ length task.now }
    ensures { result ≡ case_at task.now first number }
{
    case_body_at(task, first + (4 + 28 * (number as usize)))
}
