// A plan's steps.
ghost use Rattle.std.specs.Prelude.{◌≡◌, ◌≢◌};
ghost use Rattle.checker.specs.Kind.{kind_number};
ghost use Rattle.checker.specs.Plan.{instruction_of, kind_of, step_of};

use crate::kind::PlanKind;
use task::instruction::Instruction;

// A step writes an instruction on a line and runs it, or repeats the one that is there.
#[derive(Clone, Copy, Debug, PartialEq, Eq)]
pub enum Step {
    Write(Instruction),
    Repeat(Instruction),
}

// The step of a record of kind 16 or 17.
#[tactic(auto, unfolding(crate::specs::Plan::step_of))]
pub(crate) fn step_of(kind: PlanKind, w: Instruction) -> Step
    requires { kind_number kind ≢ 5 }
    ensures { result ≡ step_of (kind_number kind) w }
{
    match kind {
        PlanKind::Closing => unreachable!(),
        PlanKind::Write => Step::Write(w),
        PlanKind::Repeat => Step::Repeat(w),
    }
}

// The kind of a step's record.
#[tactic(auto, unfolding(crate::specs::Plan::kind_of))]
pub(crate) fn kind_of(step: Step) -> PlanKind
    ensures { kind_number result ≡ kind_of step }
{
    match step {
        Step::Write(_) => PlanKind::Write,
        Step::Repeat(_) => PlanKind::Repeat,
    }
}

// The instruction that a step runs.
#[tactic(auto, unfolding(crate::specs::Plan::instruction_of))]
pub(crate) fn instruction_of(step: Step) -> Instruction
    ensures { result ≡ instruction_of step }
{
    match step {
        Step::Write(w) | Step::Repeat(w) => w,
    }
}
