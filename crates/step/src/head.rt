// What the checker and the writer keep of a position while they run: all but the frames below the top one, which are kept in an array
// beside it, each at the depth at which it called. So a step copies no stack. The single step takes it from a position, and stores it there;
// a number of steps in one call keeps it over the position's own frames.
ghost use Rattle.std.specs.Prelude.{◌≡◌, ◌+◌, ◌*◌, ◌≤◌, ◌<◌, length};
ghost use Rattle.task.specs.Index.{case_at};
ghost use Rattle.step.specs.Head.{head_of, over, stored, left_by, starting_head, top_of, caller_of, jumped_head, advanced_head, pushed_head, popped_head, case_head, counted_head, moved_head, Fits};

use crate::facts::has;
use crate::position::{Frame, Position, frame_at, number};
use task::index::{Index, case_at};
use task::instruction::{Instruction, Line, Proc};

// A position without the frames below its top one. The facts stand last, so that the compiler keeps each field as a value of its own; which
// of them it keeps in registers goes by their order too.
#[derive(Clone, Copy, Debug, PartialEq, Eq)]
pub struct Head {
    pub procedure: Proc,
    pub line: Line,
    pub steps: u16,
    pub depth: u8,
    pub case: u8,
    pub facts: u64,
}

impl Head {
    // The first case from its start, given where the first case's record is.
    pub fn starting(task: &[u8], first: usize) -> Head
        requires { first + 28 ≤ length task.now }
        ensures { result ≡ starting_head (case_at task.now first 0).start }
    {
        Head {
            facts: case_at(task, first, 0).start,
            steps: 0,
            case: 0,
            depth: 1,
            procedure: Proc(0),
            line: Line(0),
        }
    }

    // The head of a position.
    #[tactic(auto, unfolding(crate::specs::Head::head_of, crate::specs::Position::top))]
    pub fn of(position: Position) -> Head
        requires { position.depth ≤ 16 }
        ensures { result ≡ head_of position }
    {
        let Frame { procedure, line } = frame_at(position, position.depth);
        Head {
            facts: position.facts,
            steps: position.steps,
            case: position.case,
            depth: position.depth,
            procedure,
            line,
        }
    }

    // The position after a move to this head from another: the frame that is left behind, and the top one.
    pub(crate) fn stored(self, before: Head, position: Position) -> Position
        requires { (self.depth ≤ 16) × (before.depth ≤ 16) × (before.line.0 < 255) }
        ensures { result ≡ stored before self position }
    {
        let mut frames = position.frames;
        frames[number(before.depth)] = before.left_behind(self.depth);
        self.over(frames)
    }

    // The position of this head over its frames: the top one is the head's, whatever stands in its slot.
    #[tactic(auto, unfolding(crate::specs::Head::over, crate::specs::Head::top_of))]
    pub fn over(self, mut frames: [Frame; 16]) -> Position
        requires { self.depth ≤ 16 }
        ensures { result ≡ over self frames }
    {
        frames[number(self.depth)] = self.top();
        Position {
            facts: self.facts,
            steps: self.steps,
            case: self.case,
            depth: self.depth,
            frames,
        }
    }

    // The frame that a move to a depth leaves in the stack: a call its own, at the line to come back to; any other move (0, 0), which stays if the frame
    // is freed, and is else covered by the new top one.
    #[tactic(auto, unfolding(crate::specs::Head::left_by, crate::specs::Position::origin))]
    pub fn left_behind(self, depth: u8) -> Frame
        requires { self.line.0 < 255 }
        ensures { result ≡ left_by self depth }
    {
        if self.depth < depth {
            return self.caller();
        }
        Frame::default()
    }

    // The top frame.
    #[tactic(auto, unfolding(crate::specs::Head::top_of))]
    pub fn top(self) -> Frame
        ensures { result ≡ top_of self }
    {
        Frame {
            procedure: self.procedure,
            line: self.line,
        }
    }

    // The frame to come back to after a call.
    pub fn caller(self) -> Frame
        requires { self.line.0 < 255 }
        ensures { result ≡ caller_of self }
    {
        Frame {
            procedure: self.procedure,
            line: Line(self.line.0 + 1),
        }
    }

    // The top frame's line becomes another.
    fn jumped(self, line: Line) -> Head
        ensures { result ≡ jumped_head self line }
    {
        Head { line, ..self }
    }

    // The top frame's line grows by 1.
    fn advanced(self) -> Head
        requires { self.line.0 < 255 }
        ensures { result ≡ advanced_head self }
    {
        self.jumped(Line(self.line.0 + 1))
    }

    // Line 0 of a procedure is pushed; the caller's frame is kept beside the head.
    fn pushed(self, procedure: Proc) -> Head
        requires { self.depth < 255 }
        ensures { result ≡ pushed_head self procedure }
    {
        Head {
            depth: self.depth + 1,
            procedure,
            line: Line(0),
            ..self
        }
    }

    // The top frame is freed, and the frame below it is the top one.
    fn popped(self, below: Frame) -> Head
        requires { 0 < self.depth }
        ensures { result ≡ popped_head self below }
    {
        Head {
            depth: self.depth - 1,
            procedure: below.procedure,
            line: below.line,
            ..self
        }
    }

    // The next case, given its number: with one frame it begins at its start, with none the run is finished.
    fn next_case(self, case: u8, depth: u8, facts: u64) -> Head
        ensures { result ≡ case_head self case depth facts }
    {
        Head {
            facts,
            case,
            depth,
            procedure: Proc(0),
            line: Line(0),
            ..self
        }
    }

    // The head after an instruction that no question turned down, with one step more done, given the facts after an action and the frame below the
    // top one.
    pub fn moved(
        mut self,
        task: &[u8],
        index: Index,
        below: Frame,
        facts: u64,
        w: Instruction,
    ) -> Head
        requires { Fits self w × (index.first + 28 * index.cases ≤ length task.now) }
        ensures { result ≡ counted_head (moved_head task.now index self below facts w) }
    {
        self.steps += 1;
        match w {
            Instruction::Empty => self,
            Instruction::Act(_) => Head { facts, ..self }.advanced(),
            // The next line if the fact is true, else the target.
            Instruction::Goto(target, fact) => {
                if has(self.facts, fact) {
                    return self.advanced();
                }
                self.jumped(target)
            }
            Instruction::Call(procedure) => self.pushed(procedure),
            // With more than one frame a pop, else the next case or the finish.
            Instruction::End => {
                if 1 < self.depth {
                    return self.popped(below);
                }
                let next = self.case + 1;
                if next < index.cases {
                    let start = case_at(task, index.first, next).start;
                    return self.next_case(next, 1, start);
                }
                self.next_case(next, 0, self.facts)
            }
        }
    }
}
