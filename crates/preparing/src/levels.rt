// Step 5's levels: the panels with a floor, packed to the front in sheet order, and what is compared there.
ghost use Rattle.std.specs.Prelude.{◌≡◌, ◌≤◌};
ghost use Rattle.tables.specs.Held.{meant, meant_v};
ghost use Rattle.thresholds.specs.Thresholds.{floored};
ghost use Rattle.preparing.specs.Levels.{PackedAs, LevelsNear, LevelTables};
ghost use Rattle.cue.specs.Sizes.{size_limit};

use crate::Packed;
use tables::differences::{less, rest};

// Packs the panels with a floor.
pub fn pack(kept: [u8; 6], floor: [u64; 6], m: usize) -> Packed
    requires { m ≤ size_limit }
    ensures { PackedAs kept (floored m (meant_v floor)) result }
{
    let mut bytes = [0u8; 6];
    let mut at = [0u8; 6];
    let mut f: usize = 0;
    for i in 0..m {
        if words::present(floor[i]) {
            bytes[f] = kept[i];
            at[f] = i as u8;
            f += 1;
        }
    }
    Packed {
        panels: f,
        kept: bytes,
        at,
    }
}

// For the panel i of each level what the walk compares, d(i,j) − p(i), and what step 6's w is made of, p(i) − Δ − d(i,j). What it needs comes from
// five places of its one caller: a struct would be built for that call alone.
pub fn compared(
    through: &[[u64; 6]; 6],
    floor: [u64; 6],
    asks: [u64; 6],
    at: [u8; 6],
    f: usize,
    n: usize,
    gains: &mut [[u64; 6]; 6],
    needs: &mut [[u64; 6]; 6],
)
    requires { (f ≤ size_limit) × (n ≤ size_limit) × LevelsNear f n through.now floor asks at }
    ensures { LevelTables f n (meant through.now) (meant_v floor) (meant_v asks) at gains.new needs.new }
{
    for l in 0..f {
        let i = usize::from(at[l]);
        gains[l] = less(through[i], floor[i], n);
        needs[l] = rest(asks[i], through[i], n);
    }
}
