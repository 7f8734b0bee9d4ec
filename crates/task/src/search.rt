// The search for the first place at which a test says no.
ghost use Rattle.std.specs.Prelude.{ℕ, ◌≤◌, ◌<◌, true, false};

// How many of the places 0, 1, ..., `count` - 1 stand before the first at which the test says no: all of them where none does.
pub(crate) fn first_no<F: Fn(usize) -> bool + Drop>(count: usize, test: F) -> usize
    requires { (k : ℕ) → k < count → F.pre test k }
    ensures within { result ≤ count }
    ensures before { (k : ℕ) → k < result → F.post test k true }
    ensures found { result < count → F.post test result false }
{
    for k in 0..count {
        if !test(k) {
            return k;
        }
    }
    count
}
