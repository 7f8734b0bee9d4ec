// A task's bounds, as its first record gives them.
ghost use Rattle.std.specs.Prelude.{◌≡◌, ◌+◌, ◌≤◌, length};
ghost use Rattle.task.specs.Bounds.{in_range, bounds_at, line_count};

use records::numbers::two_at;

// Facts F, procedures b, last line n, stack bound m and step bound S.
#[derive(Clone, Copy, Debug, Default, PartialEq, Eq)]
pub struct Bounds {
    pub facts: u8,
    pub procedures: u8,
    pub last: u8,
    pub stack: u8,
    pub steps: u16,
}

// The bounds whose six bytes start at an offset.
pub(crate) fn bounds_at(bytes: &[u8], at: usize) -> Bounds
    requires { at + 6 ≤ length bytes.now }
    ensures { result ≡ bounds_at bytes.now at }
{
    Bounds {
        facts: bytes[at],
        procedures: bytes[at + 1],
        last: bytes[at + 2],
        stack: bytes[at + 3],
        steps: two_at(bytes, at + 4),
    }
}

// Question 5.
pub(crate) fn in_range(b: Bounds) -> bool
    ensures { result ≡ in_range b }
{
    ((1 <= b.facts) & (b.facts <= 64))
        & ((1 <= b.procedures) & (b.procedures <= 8))
        & ((1 <= b.last) & (b.last <= 31))
        & ((1 <= b.stack) & (b.stack <= 16))
        & ((1 <= b.steps) & (b.steps <= 4096))
}

// How many lines a program has.
pub fn line_count(b: Bounds) -> u16
    ensures { result ≡ line_count b }
{
    b.procedures as u16 * (b.last as u16 + 1)
}
