// Facts and literals: whether a fact is true in a state, and whether a condition holds there.
ghost use Rattle.std.specs.Prelude.{◌≡◌, ◌<◌};
ghost use Rattle.step.specs.Facts.{has, holds};

use task::facts::Literals;

// Whether a set has a fact.
pub(crate) fn has(set: u64, fact: u8) -> bool
    requires { fact < 64 }
    ensures { result ≡ has set fact }
{
    (set >> fact) % 2 == 1
}

// Whether a condition holds in a state: no fact that must be true is missing, and none that must be false is there.
pub(crate) fn holds(state: u64, condition: Literals) -> bool
    ensures { result ≡ holds state condition }
{
    let missing = condition.positive & !state;
    let present = condition.negative & state;
    missing | present == 0
}
