// The lines in a lent space, each with the largest weight that keeps it within a wish, and the largest of these: the latest timing.
ghost use Rattle.std.specs.Prelude.{◌≡◌, ℕ, ◌+◌, ◌*◌, ◌≤◌, ℤ, length};
ghost use Rattle.maxplus.specs.Entry.{inv};
ghost use Rattle.maxplus.specs.Line.{at};
ghost use Rattle.cue.specs.Cue.{Cue, overdue};
ghost use Rattle.cue.specs.Latest.{latest};
ghost use Rattle.cue.specs.Sizes.{size_limit};
ghost use Rattle.cue.specs.Standing.{lines_of};
ghost use Rattle.cue.specs.Written.{line_size};
ghost use Rattle.sheet.specs.Times.{far_limit};
ghost use Rattle.words.specs.Words.{entry, signed_far, Near};
ghost use Rattle.tables.specs.Held.{meant_v, HoldsV, CloselyV};
ghost use Rattle.timing.specs.Times.{timing_of};
ghost use Rattle.reaching.specs.Inner.{most_within, Weighable};

use laying::cap::line_at;
use tables::largest::overdue;
use tables::raise;
use timing::Timing;
use timing::times::numbers_of;
use words::{LINE_SIZE, LineWords};

// The least g(j) − l(j), which is minus the largest l(j) − g(j).
fn weight(wish: [u64; 6], line: [u64; 6], n: usize) -> u64
    requires { (n ≤ size_limit) × CloselyV n far_limit wish × CloselyV n signed_far line }
    ensures is { entry result ≡ inv (overdue n (meant_v wish) (meant_v line)) }
    ensures near { Near result }
{
    let past = overdue(wish, line, n);
    words::minus(words::of_number(0), past)
}

// The largest of weight + line over the first `count` lines of the space.
fn combined(space: &[i32], count: usize, wish: LineWords) -> LineWords
    requires { (wish.count ≤ size_limit) × (line_size * count ≤ length space.now) × CloselyV wish.count far_limit wish.at }
    ensures sized { result.count ≡ wish.count }
    ensures made { HoldsV wish.count
        (most_within wish.count (meant_v wish.at) (lines_of wish.count count space.now)) result.at }
{
    let n = wish.count;
    let within = wish.at;
    let mut most = [0u64; 6];
    for k in 0..count {
        let line = line_at(space, LINE_SIZE * k, n);
        let at = line.at;
        raise(&mut most, weight(within, at, n), at, n);
    }
    LineWords { count: n, at: most }
}

// The latest timing no later than the wish that the lines in the space make.
pub fn latest(space: &[i32], count: usize, wish: LineWords) -> Timing
    requires { (P : Cue) × (G : ℕ → ℤ) × Weighable wish.count P G count space.now wish.at }
    ensures { (P : Cue) (G : ℕ → ℤ) → Weighable wish.count P G count space.now wish.at →
        result ≡ timing_of wish.count (latest wish.count P G) }
{
    numbers_of(combined(space, count, wish))
}
