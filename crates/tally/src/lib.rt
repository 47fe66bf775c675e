// The counts of document 01's walk without walking. What happens below a level hangs on the triggers left to the levels from there on, and
// on nothing else, so the last answer of each level is remembered with those triggers. Where no fixing cuts another panel's triggers, each
// level is looked into once. The triggers left to the levels from one on are one word, six bits each, that level's lowest.
#![tactic(auto)]

ghost use Rattle.std.specs.Prelude.{◌≡◌, ◌+◌, ◌≤◌, ◌<◌, length, get_or};
ghost use Rattle.walk.specs.Trace.{Masks};
ghost use Rattle.walk.specs.State.{counts_of};
ghost use Rattle.tally.specs.Counting.{digit, Speaks, behind, CountReady, Counted, ahead, tried};
ghost use Rattle.cue.specs.Sizes.{size_limit};

use trigger_sets::{low, others};
use walk::Counts;
use walk::narrowing::cut_by;

// What a level remembers: the triggers that were left to it and those behind it, and what happened with them.
#[derive(Clone, Copy)]
pub struct Seen {
    pub left: u64,
    pub counts: Counts,
}

// The triggers left to the i-th level from the first one that the word speaks of: six bits, so `as` loses nothing, where TryFrom would add an error.
fn left_at(left: u64, i: usize) -> u8
    requires { i < 6 }
    ensures { result ≡ digit left i }
{
    ((left >> (6 * i)) % 64) as u8
}

// The triggers left to the levels behind one when trigger j has been fixed there.
fn cut_below(left: u64, gains: &[[u64; 6]; 6], level: usize, j: usize) -> u64
    requires { (level < 6) × (j < 6) }
    ensures { Speaks (behind gains.now level left j) (level + 1) result }
{
    let mut r: u64 = 0;
    for k in (level + 1..6).rev() {
        let serves = gains[level][j] <= gains[k][j];
        r = r * 64 + u64::from(cut_by(j, serves, left_at(left, k - level)));
    }
    r
}

// What happens from a level on: remembered, or worked out by trying each of its triggers. The panels and their gains are handed on as they are: a
// struct of the two would have to be taken apart at each use.
#[cycle(below_each)]
fn below(
    seen: &mut [Seen; 6],
    level: usize,
    left: u64,
    panels: usize,
    gains: &[[u64; 6]; 6],
) -> Counts
    requires { CountReady gains.now panels seen.old × (level ≤ panels) }
    ensures { Counted gains.now panels (ahead gains.now panels level left) result seen.new }
{
    if level == panels {
        return Counts {
            steps: 0,
            selections: 1,
        };
    }
    if seen[level].left == left {
        return seen[level].counts;
    }
    let counts = each(seen, level, left, left_at(left, 0), panels, gains);
    seen[level] = Seen { left, counts };
    counts
}

// What happens when the triggers m of a level are tried, one after the other.
#[cycle(below_each)]
fn each(
    seen: &mut [Seen; 6],
    level: usize,
    left: u64,
    m: u8,
    panels: usize,
    gains: &[[u64; 6]; 6],
) -> Counts
    requires { CountReady gains.now panels seen.old × (level < panels) × (m < 64) }
    ensures { Counted gains.now panels (tried gains.now panels level left m) result seen.new }
{
    if m == 0 {
        return Counts {
            steps: 0,
            selections: 0,
        };
    }
    let rest = others(m);
    let cut = cut_below(left, gains, level, usize::from(low(m)));
    let first = below(seen, level + 1, cut, panels, gains);
    let after = each(seen, level, left, rest, panels, gains);
    Counts {
        steps: 1 + first.steps + after.steps,
        selections: first.selections + after.selections,
    }
}

// The word of the triggers kept for all levels.
fn packed(kept: &[u8; 6]) -> u64
    requires { Masks kept.now }
    ensures { Speaks (λ k. get_or kept.now k 0) 0 result }
{
    let mut left: u64 = 0;
    for k in (0..6).rev() {
        left = left * 64 + u64::from(kept[k]);
    }
    left
}

// The fixings and the selections of the whole walk. At first each level remembers that no triggers give nothing.
pub fn tally(panels: usize, kept: &[u8; 6], gains: &[[u64; 6]; 6]) -> Counts
    requires { (panels ≤ size_limit) × Masks kept.now × (length kept.now ≡ 6) }
    ensures { result ≡ counts_of kept.now gains.now panels }
{
    let nothing = Counts {
        steps: 0,
        selections: 0,
    };
    let unseen = Seen {
        left: 0,
        counts: nothing,
    };
    let mut seen = [unseen; 6];
    below(&mut seen, 0, packed(kept), panels, gains)
}
