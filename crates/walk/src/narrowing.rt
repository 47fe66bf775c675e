// What fixings leave to a later panel of its kept triggers.
ghost use Rattle.std.specs.Prelude.{◌≡◌, ◌<◌, ◌≤◌, get_or};
ghost use Rattle.walk.specs.Trace.{Masks, cut, mask_at};
ghost use Rattle.walk.specs.State.{picked, Triggers};
ghost use Rattle.cue.specs.Sizes.{size_limit};

use trigger_sets::has;

// What fixing trigger j leaves of a later panel's mask m; `serves`: j is there as good as where it was fixed.
pub fn cut_by(j: usize, serves: bool, m: u8) -> u8
    requires { j < 6 }
    ensures { result ≡ cut j serves m }
{
    if has(m, j) && serves { 1 << j } else { m }
}

// The pick of level i, one of k: below eight, so `as` loses nothing, where TryFrom would add an error.
fn pick(picks: u64, k: usize, i: usize) -> usize
    requires { (i < k) × (k ≤ size_limit) × Triggers k picks }
    ensures is { result ≡ get_or (picked k picks) i 0 }
    ensures trigger { result < 6 }
{
    ((picks >> (3 * (k - 1 - i))) % 8) as usize
}

// The triggers left to level k after the picks of the levels above it.
pub fn narrowed(kept: &[u8; 6], gains: &[[u64; 6]; 6], picks: u64, k: usize) -> u8
    requires { (k < 6) × Triggers k picks × Masks kept.now }
    ensures { (result ≡ mask_at kept.now gains.now (picked k picks)) × (result < 64) }
{
    let mut m = kept[k];
    for i in 0..k {
        let j = pick(picks, k, i);
        let serves = gains[i][j] <= gains[k][j];
        m = cut_by(j, serves, m);
    }
    m
}
