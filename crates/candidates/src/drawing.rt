// Step 6: where rays begin, and the shift to a line.
ghost use Rattle.std.specs.Prelude.{◌≤◌, ◌<◌};
ghost use Rattle.maxplus.specs.Entry.{◌⊗◌, inv};
ghost use Rattle.maxplus.specs.Tables.{normal};
ghost use Rattle.words.specs.Words.{entry, Close};
ghost use Rattle.sheet.specs.Sizes.{star_size, mark_down, starred_size, shifted_size};
ghost use Rattle.tables.specs.Held.{meant, meant_v, Closely, CloselyV};
ghost use Rattle.tables.specs.Lines.{Carries};
ghost use Rattle.cue.specs.Sizes.{size_limit};

use tables::largest::largest;
use words::LineWords;

// Column t of M*, shifted to r(t) at t: pull is r(t) with the sign turned.
pub fn first_ray(star: &[[u64; 6]; 6], pull: u64, t: usize, n: usize) -> LineWords
    requires { (n ≤ size_limit) × (t < n) × Closely n n star_size star.now × Close mark_down pull }
    ensures { Carries n starred_size (λ i. meant star.now i t ⊗ inv (entry pull)) result }
{
    let mut r = [0u64; 6];
    for i in 0..n {
        r[i] = words::minus(star[i][t], pull);
    }
    LineWords { count: n, at: r }
}

// "and shift so that the greatest component is 0"
pub fn normal(x: LineWords) -> LineWords
    requires { (x.count ≤ size_limit) × CloselyV x.count starred_size x.at }
    ensures { Carries x.count shifted_size (normal x.count (meant_v x.at)) result }
{
    let top = largest(x.at, x.count);
    shifted(x, top)
}

// Each component less the number of top.
fn shifted(x: LineWords, top: u64) -> LineWords
    requires { (x.count ≤ size_limit) × CloselyV x.count starred_size x.at × Close starred_size top }
    ensures { Carries x.count shifted_size (λ j. meant_v x.at j ⊗ inv (entry top)) result }
{
    let n = x.count;
    let mut r = [0u64; 6];
    for j in 0..n {
        r[j] = words::minus(x.at[j], top);
    }
    LineWords { count: n, at: r }
}
