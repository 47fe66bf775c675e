// From the list of a cue to the sheet's, where it stands in a lent space: each line laid out over the sheet's triggers, and with its cap if the
// sheet has a last line.
#![tactic(auto)]

ghost use Rattle.std.specs.Prelude.{◌≡◌, List, ℤ};
ghost use Rattle.cue.specs.Written.{width, with_list};
ghost use Rattle.sheet.specs.Sheet.{Sheet, given};
ghost use Rattle.sheet.specs.Cue.{sheet_lines, sheet_caps};
ghost use Rattle.laying.specs.Laying.{Listing};

use crate::cap::add_caps;
use crate::lay::lay_out;
use spares::Places;
use words::{CAPPED_SIZE, LINE_SIZE};

pub mod cap;
mod lay;

// The words that a line takes: with a cap where the sheet has a last line.
pub fn width(capped: bool) -> usize
    ensures { (t : Sheet) → capped ≡ given t.last → result ≡ width (sheet_caps t) }
{
    if capped { CAPPED_SIZE } else { LINE_SIZE }
}

// The sheet's list in place of the cue's.
pub fn finish(space: &mut [i32], count: usize, p: Places, moments: Option<[u64; 6]>)
    requires { (t : Sheet) × (before : List ℤ) × Listing t before count space.old p moments }
    ensures { (t : Sheet) (before : List ℤ) → Listing t before count space.old p moments →
        space.new ≡ with_list t.triggers (sheet_caps t) (sheet_lines t) before }
{
    lay_out(space, count, p);
    match moments {
        Some(overruns) => add_caps(space, count, p.triggers, overruns),
        None => {}
    }
}
