// Differences with one number, entry by entry.
ghost use Rattle.std.specs.Prelude.{ℕ, ◌≤◌, ◌<◌, get_or};
ghost use Rattle.maxplus.specs.Entry.{◌⊗◌, inv};
ghost use Rattle.words.specs.Words.{entry, far, Near};
ghost use Rattle.tables.specs.Held.{meant_v, HoldsV, CloselyV};
ghost use Rattle.cue.specs.Sizes.{size_limit};

// What f gives for each of the first n words.
fn each<F: Fn(u64) -> u64>(row: [u64; 6], n: usize, f: F) -> [u64; 6]
    requires { (n ≤ size_limit) × ((j : ℕ) → j < n → F.pre f (get_or row j 0)) }
    ensures { (j : ℕ) → j < n → F.post f (get_or row j 0) (get_or result j 0) }
{
    let mut r = [0u64; 6];
    for j in 0..n {
        r[j] = f(row[j]);
    }
    r
}

// Each entry less one number; absent stays absent.
pub fn less(row: [u64; 6], x: u64, n: usize) -> [u64; 6]
    requires { (n ≤ size_limit) × CloselyV n far row × Near x }
    ensures { HoldsV n (λ j. meant_v row j ⊗ inv (entry x)) result }
{
    each(row, n, |a| words::minus(a, x))
}

// One number less each entry.
pub fn rest(x: u64, row: [u64; 6], n: usize) -> [u64; 6]
    requires { (n ≤ size_limit) × CloselyV n far row × Near x }
    ensures { HoldsV n (λ j. entry x ⊗ inv (meant_v row j)) result }
{
    each(row, n, |a| words::minus(x, a))
}
