// The times that are lent, as a timing: as many as are lent, and none that is made up.
ghost use Rattle.std.specs.Prelude.{◌≡◌, ◌≤◌, length};
ghost use Rattle.timing.specs.Times.{component};
ghost use Rattle.cue.specs.Sizes.{size_limit, six};

use timing::Timing;

// The time at a place, 0 where none is lent.
fn time(lent: &[i64], j: usize) -> i64
    ensures { result ≡ component lent.now j }
{
    if j < lent.len() { lent[j] } else { 0 }
}

// A timing's six components. More than six are no sheet's, so that they are not read.
fn six_times(lent: &[i64]) -> [i64; 6]
    ensures { length lent.now ≤ size_limit → result ≡ six (component lent.now) }
{
    if lent.len() > 6 {
        return [0; 6];
    }
    [
        time(lent, 0),
        time(lent, 1),
        time(lent, 2),
        time(lent, 3),
        time(lent, 4),
        time(lent, 5),
    ]
}

pub fn lent_timing(lent: &[i64]) -> Timing
    ensures number { result.count ≡ length lent.now }
    ensures times { length lent.now ≤ size_limit → result.at ≡ six (component lent.now) }
{
    let at = six_times(lent);
    Timing {
        count: lent.len(),
        at,
    }
}
