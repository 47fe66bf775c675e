// Testing a timing: whether it is tightest and in time.
#![tactic(auto)]

ghost use Rattle.std.specs.Prelude.{◌≡◌};
ghost use Rattle.sheet.specs.Sheet.{Sheet};
ghost use Rattle.sheet.specs.Meaning as meaning;
ghost use Rattle.sheet.specs.Meaning.{InTime};
ghost use Rattle.sheet.specs.Good.{Good};
ghost use Rattle.tables.specs.Held.{Says};
ghost use Rattle.timing.specs.Times.{component, TimingWords};
ghost use Rattle.moments.specs.Moments.{MomentsOf};
ghost use Rattle.testing.specs.Testing.{testing, test_answer};

use admitting::{admit, times_in_use};
use moments::in_time;
use preparing::Tables;
use refusals::Refusal;
use timing::Timing;
use timing::test::tested;
use timing::times::words_of;
use words::LineWords;

// Whether a timing is tightest on a sheet and meets every last moment; or document 01's refusal. Only the first n of its six components are
// looked at.
pub fn test_timing(bytes: &[u8], timing: Timing) -> Result<bool, Refusal>
    ensures { test_answer result ≡ testing bytes.now timing.count (component timing.at) }
{
    let mut tables = Tables::blank();
    let prepared = admit(bytes, timing, &mut tables)?;
    let cue = prepared.cue;
    let times = words_of(timing, cue.places.triggers);
    if !early(times, prepared.moments) {
        return Ok(false);
    }
    let x = times_in_use(times, cue.places);
    Ok(tested(
        &tables.order,
        &tables.lag,
        cue.floor,
        cue.due,
        prepared.marked.least,
        x,
        cue.panels,
    ))
}

// Whether no trigger lands too late, where the sheet has last moments.
fn early(x: LineWords, moments: Option<[u64; 6]>) -> bool
    requires { (t : Sheet) × (X : meaning.Timing) × MomentsOf t moments × Good t × TimingWords t.triggers X x }
    ensures { (t : Sheet) (X : meaning.Timing) → MomentsOf t moments → Good t → TimingWords t.triggers X x → Says (InTime t X) result }
{
    match moments {
        Some(overruns) => in_time(x, overruns),
        None => true,
    }
}
