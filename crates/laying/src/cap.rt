// Caps: the lines of a sheet with a last line take eight words each, the cap behind the seven. They are moved where they stand, the last line
// first, so that none is written over before it is read.
ghost use Rattle.std.specs.Prelude.{◌≡◌, List, [], ◌∷◌, ◌++◌, ◌+◌, ◌*◌, ◌≤◌, ℤ, pos, length, drop};
ghost use Rattle.std.proofs.Math.Option.{some};
ghost use Rattle.maxplus.specs.Line.{Line, at};
ghost use Rattle.cue.specs.Sizes.{size_limit};
ghost use Rattle.cue.specs.Standing.{line_at};
ghost use Rattle.cue.specs.Written.{line_size, capped_size, line_words, lent_words};
ghost use Rattle.words.specs.Words.{signed_far};
ghost use Rattle.tables.specs.Lines.{Carries};
ghost use Rattle.buffer.specs.Space.{laid};
ghost use Rattle.laying.specs.Laying.{Cappable, CappableLine};

use crate::lay::components;
use words::{CAPPED_SIZE, LINE_SIZE, LineWords};

// The line whose seven words begin at a place.
pub fn line_at(space: &[i32], from: usize, n: usize) -> LineWords
    requires { (n ≤ size_limit) × (from + line_size ≤ length space.now) }
    ensures { Carries n signed_far (at n (line_at n space.now from)) result }
{
    let mut r = [0u64; 6];
    for j in 0..n {
        r[j] = words::of_signed(space[from + 1 + j]);
    }
    LineWords { count: n, at: r }
}

// The words of a line with its cap, from a place on.
fn put_capped(space: &mut [i32], at: usize, n: usize, line: [i32; 6], cap: i32)
    requires { (n ≤ size_limit) × (length line ≡ 6) × (at + capped_size ≤ length space.old) }
    ensures { space.new ≡ laid space.old at (pos n ∷ line ++ (cap ∷ [])) }
{
    space[at] = n as i32;
    space[at + 1..at + LINE_SIZE].copy_from_slice(&line);
    space[at + LINE_SIZE] = cap;
}

// The k-th line moved to its place among lines of eight words, with its cap.
fn add_cap(space: &mut [i32], k: usize, n: usize, overruns: [u64; 6])
    requires { (capped_size * k + capped_size ≤ length space.old) × ((c : Line n) × (z : ℤ) × CappableLine n overruns k space.old c z) }
    ensures { (c : Line n) (z : ℤ) → CappableLine n overruns k space.old c z →
        space.new ≡ laid space.old (capped_size * k) (line_words n c ++ (z ∷ [])) }
{
    let from = LINE_SIZE * k;
    let line = line_at(space, from, n);
    let entries = line.at;
    let cap = moments::cap(entries, overruns, n);
    let words = components(space, from);
    put_capped(space, CAPPED_SIZE * k, n, words, words::signed(cap));
}

// The first `count` lines of a space, of n components each, with their caps, and the rest behind them as it was.
pub fn add_caps(space: &mut [i32], count: usize, n: usize, overruns: [u64; 6])
    requires { (capped_size * count ≤ length space.old) ×
        ((caps : Line n → ℤ) × (L : List (Line n)) × Cappable n overruns count space.old caps L) }
    ensures { (caps : Line n → ℤ) (L : List (Line n)) → Cappable n overruns count space.old caps L →
        space.new ≡ lent_words n (some caps) L ++ drop (capped_size * count) space.old }
{
    for k in (0..count).rev() {
        add_cap(space, k, n, overruns);
    }
}
