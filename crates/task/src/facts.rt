// Fact sets and literals, and question 6 about them.
ghost use Rattle.std.specs.Prelude.{◌≡◌, ℕ, ◌+◌, ◌≤◌, length};
ghost use Rattle.task.specs.Facts.{literals_at, within, Greatest, consistent, case_consistent, pairs_before_fault};

use crate::index::Case;
use records::numbers::eight_at;

// A pair of fact sets: the facts to be true and the facts to be false.
#[derive(Clone, Copy, Debug, PartialEq, Eq)]
pub struct Literals {
    pub positive: u64,
    pub negative: u64,
}

// The pair whose 16 bytes start at an offset; they are all there.
pub(crate) fn literals_at(bytes: &[u8], at: usize) -> Literals
    requires { at + 16 ≤ length bytes.now }
    ensures { result ≡ literals_at bytes.now at }
{
    Literals {
        positive: eight_at(bytes, at),
        negative: eight_at(bytes, at + 8),
    }
}

// The greatest set of facts below `facts`: a set has such facts alone exactly if it is no greater. Of `(1 << facts) - 1` the compiler would make
// a shift of each set that is compared with it. 63 ones are shifted: 64 would, with 0 facts, have to be shifted by 64, which is no shift of a word.
pub(crate) fn most(facts: u8) -> u64
    ensures { Greatest facts result }
{
    if 64 <= facts {
        return u64::MAX;
    }
    (u64::MAX >> 1) >> (63 - facts)
}

// Whether a set uses bits below `facts` alone.
pub fn within(facts: u8, set: u64) -> bool
    ensures { result ≡ within facts set }
{
    set <= most(facts)
}

// Question 6 on one pair, given the greatest set: both sets are no greater exactly if their union is not.
pub(crate) fn consistent_to(most: u64, literals: Literals) -> bool
    ensures { (facts : ℕ) → Greatest facts most → result ≡ consistent facts literals }
{
    if literals.positive & literals.negative != 0 {
        return false;
    }
    (literals.positive | literals.negative) <= most
}

// Question 6 on a case: its start, and its goal pair.
pub fn case_consistent(facts: u8, case: Case) -> bool
    ensures { result ≡ case_consistent facts case.start case.goal }
{
    let most = most(facts);
    (case.start <= most) & consistent_to(most, case.goal)
}

// The pass over an action's pairs, given the greatest set.
fn pairs_to(most: u64, body: &[u8]) -> usize
    ensures { (facts : ℕ) → Greatest facts most → result ≡ pairs_before_fault facts body.now }
{
    // It counts bytes: a search that counts pairs takes one instruction a pair more.
    let end = body.len() / 16 * 16;
    let mut at = 0;
    while at < end {
        if consistent_to(most, literals_at(body, at)) {
            at += 16;
        } else {
            return at / 16;
        }
    }
    at / 16
}

// Of the pairs in an action's body, how many stand before the first that fails question 6: all of them exactly if none does. Fewer than 16 bytes
// at its end are no pair.
pub fn pairs_before_fault(facts: u8, body: &[u8]) -> usize
    ensures { result ≡ pairs_before_fault facts body.now }
{
    // With 64 facts or more no set is too great: in a loop of its own the compiler leaves that test out.
    if 64 <= facts {
        return pairs_to(u64::MAX, body);
    }
    pairs_to(most(facts), body)
}
