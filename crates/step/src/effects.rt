// What an action does: its effects are walked once, every condition tested in the state before the action, into the sets of the facts
// that are raised and lowered.
ghost use Rattle.std.specs.Prelude.{◌≡◌, ◌+◌, ◌*◌, ◌≤◌, length};
ghost use Rattle.task.specs.Index.{action_at, effects_of};
ghost use Rattle.step.specs.Effects.{changes_of};

use crate::facts::holds;
use task::index::effect_at;

// The facts that fired effects raise, and those that they lower.
#[derive(Clone, Copy, Debug, PartialEq, Eq)]
pub struct Changes {
    pub raised: u64,
    pub lowered: u64,
}

// What the effects of the action at an offset, so many of them, change in a state.
pub(crate) fn changes_of(task: &[u8], at: usize, effects: u16, state: u64) -> Changes
    requires { (effects ≡ (action_at task.now at).effects) × (at + (20 + 32 * effects) ≤ length task.now) }
    ensures { result ≡ changes_of state (effects_of task.now at) }
{
    let mut raised = 0;
    let mut lowered = 0;
    for e in 0..effects {
        let condition = effect_at(task, at, e).condition;
        if holds(state, condition) {
            // Read here, so that of an effect that does not fire the condition alone is loaded.
            let effect = effect_at(task, at, e);
            raised |= effect.raised;
            lowered |= effect.lowered;
        }
    }
    Changes { raised, lowered }
}
