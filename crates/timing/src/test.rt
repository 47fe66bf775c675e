// Testing a timing: whether it keeps the order and reaches the least deviation (document 01, "Testing a timing").
ghost use Rattle.std.specs.Prelude.{ℕ, ℤ};
ghost use Rattle.cue.specs.Cue.{timing};
ghost use Rattle.sheet.specs.Sizes.{order_limit};
ghost use Rattle.sheet.specs.Times.{far_limit};
ghost use Rattle.tables.specs.Held.{HoldsV, Closely, CloselyV};
ghost use Rattle.timing.specs.Deviation.{SheetClose};
ghost use Rattle.timing.specs.Test.{TestSays};

use crate::deviation::deviation;
use crate::order::keeps;
use words::LineWords;

// "Otherwise yes exactly when the timing is tightest, else no", of the times x: `least` is the word of the least deviation of the tables.
// The order and the lags are lent from where they stand, and the marks are handed over: a struct of them would be built for this one call.
pub fn tested(
    order: &[[u64; 6]; 6],
    lag: &[[u64; 6]; 6],
    floor: [u64; 6],
    due: [u64; 6],
    least: u64,
    x: LineWords,
    panels: usize,
) -> bool
    requires { SheetClose panels x.count lag.now floor due × Closely x.count x.count order_limit order.now ×
        CloselyV x.count far_limit x.at }
    ensures { (X : ℕ → ℤ) → HoldsV x.count (timing X) x.at →
        TestSays panels x.count order.now lag.now floor due least X result }
{
    keeps(order, x) && deviation(lag, floor, due, x, panels) == least
}
