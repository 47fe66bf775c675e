// From the words of a cue whose order can be kept to what the walk and the lines are drawn from.
ghost use Rattle.std.specs.Prelude.{List, ℕ};
ghost use Rattle.cue.specs.Cue as theory;
ghost use Rattle.preparing.specs.Prepared.{Fit, MarkedAs};

use crate::levels::{compared, pack};
use crate::{CueWords, Marked};
use candidates::Marks;
use tables::differences::less;

// Steps 2 to 5 up to the walk, for the tables M* and d; into the lent tables what the walk compares and what step 6's w is made of.
pub fn marks_of(
    cue: CueWords,
    star: &[[u64; 6]; 6],
    through: &[[u64; 6]; 6],
    gains: &mut [[u64; 6]; 6],
    needs: &mut [[u64; 6]; 6],
) -> Marked
    requires { (P : theory.Cue) × (orders : List (List ℕ)) × (lags : List (List ℕ)) × Fit P cue orders lags star.now through.now }
    ensures { (P : theory.Cue) (orders lags : List (List ℕ)) → Fit P cue orders lags star.now through.now →
        MarkedAs cue.triggers P lags star.now gains.new needs.new result }
{
    let n = cue.triggers;
    let m = cue.panels;
    let due = cue.due;
    let floor = cue.floor;
    let pulls = thresholds::pulls(star, due, n);
    let least = thresholds::least(through, pulls, floor, m, n);
    let kept = thresholds::kept(through, pulls, floor, least, m, n);
    let packed = pack(kept, floor, m);
    let masks = packed.kept;
    let at = packed.at;
    let f = packed.panels;
    let asks = less(floor, least, m);
    compared(through, floor, asks, at, f, n, gains, needs);
    let marks = Marks {
        triggers: n,
        panels: m,
        levels: f,
        pulls,
        due,
        asks,
        kept: masks,
    };
    Marked { least, kept, marks }
}
