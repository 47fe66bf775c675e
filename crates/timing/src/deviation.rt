// "Deviation is the largest x(j) − q(j) plus the largest p(i) − y(i) over panels with a floor."
ghost use Rattle.std.specs.Prelude.{◌≡◌};
ghost use Rattle.words.specs.Words.{entry};
ghost use Rattle.tables.specs.Held.{meant, meant_v, CloselyV};
ghost use Rattle.sheet.specs.Times.{far_limit};
ghost use Rattle.timing.specs.Deviation.{deviation_of, SheetClose};

use tables::largest::{overdue, shortfall};
use words::LineWords;

// The deviation of the times x.
pub fn deviation(
    lag: &[[u64; 6]; 6],
    floor: [u64; 6],
    due: [u64; 6],
    x: LineWords,
    panels: usize,
) -> u64
    requires { SheetClose panels x.count lag.now floor due × CloselyV x.count far_limit x.at }
    ensures { entry result ≡ deviation_of panels x.count (meant lag.now) (meant_v floor) (meant_v due) (meant_v x.at) }
{
    let late = overdue(due, x.at, x.count);
    let short = shortfall(lag, floor, x.at, panels, x.count);
    words::plus(late, short)
}
