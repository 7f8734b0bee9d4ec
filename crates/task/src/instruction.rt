// Instructions: three bytes op, p, q, and the instruction that they spell on a line of a task.
ghost use Rattle.std.specs.Prelude.{◌≡◌, true, ◌+◌, ◌≤◌, length};
ghost use Rattle.task.specs.Instruction.{spelled, decode, decode_for, triple_at, with_triple};
ghost use Rattle.task.specs.Program.{is_instruction};

use crate::bounds::Bounds;

// A procedure's number.
#[repr(C)]
#[derive(Clone, Copy, Debug, Default, PartialEq, Eq)]
pub struct Proc(pub u8);

// A line's number in its procedure.
#[repr(C)]
#[derive(Clone, Copy, Debug, Default, PartialEq, Eq)]
pub struct Line(pub u8);

// An instruction's three bytes.
#[derive(Clone, Copy, Debug, PartialEq, Eq)]
pub struct Triple {
    pub op: u8,
    pub p: u8,
    pub q: u8,
}

// What a line says.
#[derive(Clone, Copy, Debug, PartialEq, Eq)]
pub enum Instruction {
    // No instruction.
    Empty,
    // Does an action.
    Act(u8),
    // Jumps to a line if a fact is false.
    Goto(Line, u8),
    // Calls a procedure.
    Call(Proc),
    // Ends the procedure.
    End,
}

// Whether three bytes spell an instruction that is allowed on a line: by op, each with the range of its lines and of its operands.
pub(crate) fn decodes(b: Bounds, actions: u8, line: Line, w: Triple) -> bool
    ensures { result ≡ is_instruction (decode b actions line w) }
{
    let Line(line) = line;
    let last = b.last;
    let Triple { op, p, q } = w;
    match op {
        0 => ((p == 0) & (q == 0)) & (line <= last),
        1 => (q == 0) & ((line < last) & (p < actions)),
        2 => (line < last) & (p <= last) & (q < b.facts),
        3 => (q == 0) & ((line < last) & (p < b.procedures)),
        4 => ((p == 0) & (q == 0)) & ((1 <= line) & (line <= last)),
        5..=255 => false,
    }
}

// Questions 7 and 15: whether three bytes spell an instruction for a line of a procedure, the procedure below b, the instruction allowed there
// and not empty.
pub fn decodes_for(b: Bounds, actions: u8, procedure: Proc, line: Line, w: Triple) -> bool
    ensures { result ≡ is_instruction (decode_for b actions procedure line w) }
{
    (procedure.0 < b.procedures) & (0 < w.op) & decodes(b, actions, line, w)
}

// The instruction that three bytes spell, where they spell one.
pub fn spelled(w: Triple) -> Instruction
    requires { is_instruction (spelled w) ≡ true }
    ensures { spelled w ≡ Some result }
{
    match w.op {
        1 => Instruction::Act(w.p),
        2 => Instruction::Goto(Line(w.p), w.q),
        3 => Instruction::Call(Proc(w.p)),
        4 => Instruction::End,
        _ => Instruction::Empty,
    }
}

// The instruction that three bytes spell, if it is allowed on the line.
pub fn decode(b: Bounds, actions: u8, line: Line, w: Triple) -> Option<Instruction>
    ensures { result ≡ decode b actions line w }
{
    if decodes(b, actions, line, w) {
        return Some(spelled(w));
    }
    None
}

// The three bytes at an offset; they are all there.
pub fn triple_at(bytes: &[u8], at: usize) -> Triple
    requires { at + 3 ≤ length bytes.now }
    ensures { result ≡ triple_at bytes.now at }
{
    Triple {
        op: bytes[at],
        p: bytes[at + 1],
        q: bytes[at + 2],
    }
}

// Writes three bytes at an offset; there is room for them.
pub fn put_triple(bytes: &mut [u8], at: usize, w: Triple)
    requires { at + 3 ≤ length bytes.old }
    ensures { bytes.new ≡ with_triple bytes.old at w }
{
    bytes[at] = w.op;
    bytes[at + 1] = w.p;
    bytes[at + 2] = w.q;
}
