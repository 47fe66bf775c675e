// A timing's components as words, and back.
ghost use Rattle.std.specs.Prelude.{◌≡◌, false, ℕ, ◌≤◌, ℤ};
ghost use Rattle.cue.specs.Cue.{timing};
ghost use Rattle.sheet.specs.Times.{some_beyond};
ghost use Rattle.tables.specs.Held.{HoldsV, CloselyV};
ghost use Rattle.words.specs.Words.{far};
ghost use Rattle.timing.specs.Times.{component, TimingWords, timing_of};
ghost use Rattle.cue.specs.Sizes.{size_limit};

use crate::Timing;
use words::LineWords;

// The words of the first n components, absent past them.
pub fn words_of(timing: Timing, n: usize) -> LineWords
    requires { (n ≤ size_limit) × (some_beyond n (component timing.at) ≡ false) }
    ensures { TimingWords n (component timing.at) result }
{
    let mut r = [0u64; 6];
    for j in 0..n {
        r[j] = words::of_number(timing.at[j]);
    }
    LineWords { count: n, at: r }
}

// The timing of the numbers that the first words stand for, 0 past them.
pub fn numbers_of(x: LineWords) -> Timing
    requires { (x.count ≤ size_limit) × ((X : ℕ → ℤ) × HoldsV x.count (timing X) x.at) × CloselyV x.count far x.at }
    ensures { (X : ℕ → ℤ) → HoldsV x.count (timing X) x.at → result ≡ timing_of x.count X }
{
    let n = x.count;
    let mut at = [0i64; 6];
    for j in 0..n {
        at[j] = words::number(x.at[j]);
    }
    Timing { count: n, at }
}
