// Last moments (document 02, No. 5): how late each trigger lands, fired at 0; by this, whether times are in time, times made early enough, and
// the cap of a line.
#![tactic(auto)]

ghost use Rattle.std.specs.Prelude.{◌≡◌, ℕ, ◌≤◌, ◌<◌, ℤ};
ghost use Rattle.maxplus.specs.Entry.{num, ◌≼◌, ◌⊗◌, inv, unit};
ghost use Rattle.maxplus.specs.Tables.{sup};
ghost use Rattle.cue.specs.Cue.{overdue};
ghost use Rattle.cue.specs.Sizes.{size_limit};
ghost use Rattle.sheet.specs.Sheet.{limit};
ghost use Rattle.sheet.specs.Sizes.{cap_down};
ghost use Rattle.sheet.specs.Times.{far_limit};
ghost use Rattle.sheet.specs.Overruns.{lower};
ghost use Rattle.words.specs.Words.{entry, signed_far, Close, Near};
ghost use Rattle.tables.specs.Held.{meant, meant_v, HoldsV, Closely, CloselyV, Says};
ghost use Rattle.timing.specs.Times.{TimingWords};

use tables::column;
use tables::largest::overdue;
use words::LineWords;

// For each trigger the largest a(i,j) − b(i) over the panels, where b are the last moments: absent where it reaches none.
pub fn overruns(lag: &[[u64; 6]; 6], last: [u64; 6], m: usize, n: usize) -> [u64; 6]
    requires { (m ≤ size_limit) × (n ≤ size_limit) × Closely m n limit lag.now × CloselyV m limit last }
    ensures { HoldsV n (λ j. overdue m (meant_v last) (λ i. meant lag.now i j)) result }
{
    let mut late = [0u64; 6];
    for j in 0..n {
        let reach = column(lag, j);
        late[j] = overdue(last, reach, m);
    }
    late
}

// Whether no trigger lands too late.
pub fn in_time(x: LineWords, overruns: [u64; 6]) -> bool
    requires { (x.count ≤ size_limit) × CloselyV x.count far_limit x.at × CloselyV x.count cap_down overruns }
    ensures { Says ((j : ℕ) → j < x.count → meant_v overruns j ⊗ meant_v x.at j ≼ unit) result }
{
    for j in 0..x.count {
        if words::of_number(0) < words::plus(overruns[j], x.at[j]) {
            return false;
        }
    }
    true
}

// A time made early enough: no later than minus the overrun.
fn early(x: u64, overrun: u64) -> u64
    requires { Close far_limit x × Close cap_down overrun }
    ensures is { (z : ℤ) → entry x ≡ num z → entry result ≡ num (lower z (entry overrun)) }
    ensures close { Close far_limit result }
{
    if overrun == 0 {
        return x;
    }
    let latest = words::minus(words::of_number(0), overrun);
    if latest < x { latest } else { x }
}

// Times made early enough.
pub fn lowered(x: LineWords, overruns: [u64; 6]) -> LineWords
    requires { (x.count ≤ size_limit) × CloselyV x.count far_limit x.at × CloselyV x.count cap_down overruns }
    ensures { (X : ℕ → ℤ) → TimingWords x.count X x → TimingWords x.count (λ j. lower (X j) (meant_v overruns j)) result }
{
    let mut r = [0u64; 6];
    for j in 0..x.count {
        r[j] = early(x.at[j], overruns[j]);
    }
    LineWords {
        count: x.count,
        at: r,
    }
}

// The cap of a line: minus the largest sum of an overrun and a component.
pub fn cap(line: [u64; 6], overruns: [u64; 6], n: usize) -> u64
    requires { (n ≤ size_limit) × CloselyV n signed_far line × CloselyV n cap_down overruns }
    ensures is { entry result ≡ inv (sup n (λ j. meant_v overruns j ⊗ meant_v line j)) }
    ensures near { Near result }
{
    let mut late: u64 = 0;
    for j in 0..n {
        late = words::larger(words::plus(overruns[j], line[j]), late);
    }
    words::minus(words::of_number(0), late)
}
