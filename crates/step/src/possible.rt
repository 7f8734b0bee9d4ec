// Question 31: whether a position is possible.
ghost use Rattle.std.specs.Prelude.{◌≡◌, cond, ltb};
ghost use Rattle.step.specs.Facts.{every};
ghost use Rattle.step.specs.Possible.{in_use, unused, frame_fits, possible};

use crate::position::{Frame, Position};
use task::bounds::Bounds;
use task::facts::within;
use task::index::Index;

// Whether frame number k fits, given the depth: in use, a procedure below b and a line 0 to n; else (0, 0).
#[tactic(auto, unfolding(crate::specs::Possible::in_use, crate::specs::Possible::unused, crate::specs::Position::origin))]
fn frame_fits(bounds: Bounds, depth: u8, k: usize, frame: Frame) -> bool
    ensures { result ≡ cond (ltb k depth) (in_use bounds frame) (unused frame) }
{
    if k < depth as usize {
        return (frame.procedure.0 < bounds.procedures) & (frame.line.0 <= bounds.last);
    }
    frame == Frame::default()
}

// Whether every frame fits.
fn frames_fit(bounds: Bounds, position: Position) -> bool
    ensures { result ≡ every 16 (frame_fits bounds position) }
{
    position
        .frames
        .iter()
        .enumerate()
        .all(|(k, frame)| frame_fits(bounds, position.depth, k, *frame))
}

// Question 31. No frame exactly when all cases are finished, else 1 to m.
pub fn possible(index: Index, position: Position) -> bool
    ensures { result ≡ possible index position }
{
    (position.case <= index.cases)
        & within(index.bounds.facts, position.facts)
        & (position.steps <= index.bounds.steps)
        & ((position.case == index.cases) == (position.depth == 0))
        & (position.depth <= index.bounds.stack)
        & frames_fit(index.bounds, position)
}
