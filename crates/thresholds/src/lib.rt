// Steps 2 to 4: the pulls, the least deviation, and the kept triggers of each panel.
#![tactic(auto)]

ghost use Rattle.std.specs.Prelude.{◌≡◌, ◌≤◌, ◌<◌};
ghost use Rattle.maxplus.specs.Entry.{inv};
ghost use Rattle.words.specs.Words.{entry, Close, Near};
ghost use Rattle.cue.specs.Cue.{overdue, shortfall};
ghost use Rattle.sheet.specs.Sheet.{limit};
ghost use Rattle.sheet.specs.Sizes.{star_size, through_size, mark_down, least_up};
ghost use Rattle.tables.specs.Held.{meant, meant_v, HoldsV, Closely, CloselyV};
ghost use Rattle.maxplus.specs.Finite.{byte_of};
ghost use Rattle.thresholds.specs.Thresholds.{reaches, kept_of, KeptBytes};
ghost use Rattle.cue.specs.Sizes.{size_limit};

use tables::differences::rest;
use tables::largest::{overdue, shortfall};

// For each trigger the pull, "the largest of M*(i,j) − q(i)"; the mark r(j) is minus it.
pub fn pulls(star: &[[u64; 6]; 6], due: [u64; 6], n: usize) -> [u64; 6]
    requires { (n ≤ size_limit) × Closely n n star_size star.now × CloselyV n limit due }
    ensures { HoldsV n (λ j. overdue n (meant_v due) (λ i. meant star.now i j)) result }
{
    let mut r = [0u64; 6];
    for j in 0..n {
        r[j] = overdue(due, tables::column(star, j), n);
    }
    r
}

// Δ: "the largest, over panels with a floor, of p(i) minus the largest d(i,j) + r(j)".
pub fn least(through: &[[u64; 6]; 6], pulls: [u64; 6], floor: [u64; 6], m: usize, n: usize) -> u64
    requires { (m ≤ size_limit) × (n ≤ size_limit) × Closely m n through_size through.now × CloselyV n mark_down pulls ×
        CloselyV m limit floor }
    ensures { entry result ≡ shortfall m n (meant through.now) (meant_v floor) (λ j. inv (meant_v pulls j)) }
{
    let marks = rest(words::positive(0), pulls, n);
    shortfall(through, floor, marks, m, n)
}

// For each panel the byte of its kept triggers: 0 without a floor, and past the last panel.
pub fn kept(
    through: &[[u64; 6]; 6],
    pulls: [u64; 6],
    floor: [u64; 6],
    least: u64,
    m: usize,
    n: usize,
) -> [u8; 6]
    requires { (m ≤ size_limit) × (n ≤ size_limit) × CloselyV n mark_down pulls × CloselyV m limit floor × Close least_up least }
    ensures { KeptBytes m n (λ i. kept_of (entry least) (meant through.now) (meant_v pulls) (meant_v floor i) i) result }
{
    let mut r = [0u8; 6];
    for i in 0..m {
        r[i] = panel_byte(through, pulls, floor[i], least, i, n);
    }
    r
}

// The byte of panel i, whose floor is given.
fn panel_byte(
    through: &[[u64; 6]; 6],
    pulls: [u64; 6],
    floor: u64,
    least: u64,
    i: usize,
    n: usize,
) -> u8
    requires { (i < 6) × (n ≤ size_limit) × CloselyV n mark_down pulls × Close limit floor × Close least_up least }
    ensures { result ≡ byte_of n (kept_of (entry least) (meant through.now) (meant_v pulls) (entry floor) i) }
{
    if words::present(floor) {
        reaching(through, pulls, words::minus(floor, least), i, n)
    } else {
        0
    }
}

// The triggers by which panel i reaches what is asked of it, as bits.
fn reaching(through: &[[u64; 6]; 6], pulls: [u64; 6], ask: u64, i: usize, n: usize) -> u8
    requires { (i < 6) × (n ≤ size_limit) × CloselyV n mark_down pulls × Near ask }
    ensures { result ≡ byte_of n (reaches (entry ask) (meant through.now) (meant_v pulls) i) }
{
    let mut byte: u8 = 0;
    for j in 0..n {
        if words::plus(ask, pulls[j]) <= through[i][j] {
            byte += 1 << j;
        }
    }
    byte
}
