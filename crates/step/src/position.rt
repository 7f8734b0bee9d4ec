// A run's position: the facts that are true, the steps done, the case, and the stack of (procedure, line). The layout is fixed: a caller's run
// record has these fields. Its frames are read here by depth; its moves are those of its head.
ghost use Rattle.std.specs.Prelude.{◌≡◌, ◌-◌, ◌≤◌, ◌<◌, get_or};
ghost use Rattle.step.specs.Position.{origin};

use task::instruction::{Line, Proc};

// A procedure and a line of it; by default (0, 0).
#[repr(C)]
#[derive(Clone, Copy, Debug, Default, PartialEq, Eq)]
pub struct Frame {
    pub procedure: Proc,
    pub line: Line,
}

// The stack is the first `depth` frames, the lowest first. In a possible position the others are (0, 0).
#[repr(C)]
#[derive(Clone, Copy, Debug, PartialEq, Eq)]
pub struct Position {
    pub facts: u64,
    pub steps: u16,
    pub case: u8,
    pub depth: u8,
    pub frames: [Frame; 16],
}

// The number of the top frame at a depth; 0 also where there is none.
pub(crate) fn number(depth: u8) -> usize
    requires { depth ≤ 16 }
    ensures { (result ≡ depth - 1) × (result < 16) }
{
    (depth as usize).saturating_sub(1)
}

// The top frame at a depth.
pub(crate) fn frame_at(position: Position, depth: u8) -> Frame
    requires { depth ≤ 16 }
    ensures { result ≡ get_or position.frames (depth - 1) origin }
{
    position.frames[number(depth)]
}
