// Whether a timing keeps the order: every rule of the order table.
ghost use Rattle.std.specs.Prelude.{◌≤◌};
ghost use Rattle.cue.specs.Vectors.{Keeps};
ghost use Rattle.sheet.specs.Sizes.{order_limit};
ghost use Rattle.tables.specs.Held.{meant, meant_v, Closely, CloselyV, Says};
ghost use Rattle.sheet.specs.Times.{far_limit};
ghost use Rattle.cue.specs.Sizes.{size_limit};

use words::LineWords;

// "x(i) ≥ b(i,j) + x(j)" for each two triggers.
pub fn keeps(order: &[[u64; 6]; 6], x: LineWords) -> bool
    requires { (x.count ≤ size_limit) × Closely x.count x.count order_limit order.now × CloselyV x.count far_limit x.at }
    ensures { Says (Keeps x.count (meant order.now) (meant_v x.at)) result }
{
    let n = x.count;
    for i in 0..n {
        for j in 0..n {
            if x.at[i] < words::plus(order[i][j], x.at[j]) {
                return false;
            }
        }
    }
    true
}
