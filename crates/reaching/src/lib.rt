// Reaching for the latest tightest timing that is no later than a given one, with the list at the front of the lent space.
#![tactic(auto)]

ghost use Rattle.std.specs.Prelude.{◌≡◌, Bool, false, ℕ};
ghost use Rattle.maxplus.specs.Packing.{filled};
ghost use Rattle.sheet.specs.Sheet.{Sheet};
ghost use Rattle.sheet.specs.Cue.{used, cue_size};
ghost use Rattle.sheet.specs.Good.{Good};
ghost use Rattle.sheet.specs.Overruns.{lowered};
ghost use Rattle.sheet.specs.Times.{some_beyond};
ghost use Rattle.sheet.proofs.Seam.{at_used};
ghost use Rattle.timing.specs.Times.{component, timing_of, TimingWords};
ghost use Rattle.moments.specs.Moments.{MomentsOf};
ghost use Rattle.spares.specs.Using.{PlacesOf};
ghost use Rattle.reaching.specs.Reaching.{reaching, reached_space, reach_answer};

use crate::weighed::latest;
use admitting::{admit, times_in_use};
use candidates::Sources;
use laying::{finish, width};
use moments::lowered;
use planning::{Extent, Unplanned};
use preparing::Tables;
use spares::Places;
use timing::Timing;
use timing::times::words_of;
use trigger_sets::has;
use words::LineWords;

mod weighed;

// How many words a line takes, the number of lines, and the timing.
#[derive(Clone, Copy)]
pub struct Reached {
    pub width: usize,
    pub count: usize,
    pub timing: Timing,
}

// The latest tightest timing none of whose components exceeds the wish's, and the sheet's lines at the front of the lent space; or testing's
// refusal, or 9. Only the first n of the wish's six components are looked at.
pub fn latest_timing(bytes: &[u8], wish: Timing, space: &mut [i32]) -> Result<Reached, Unplanned>
    ensures answer { result ≡ reach_answer (reaching bytes.now wish.count (component wish.at) space.old) }
    ensures written { space.new ≡
        reached_space (reaching bytes.now wish.count (component wish.at) space.old) space.old }
{
    let mut tables = Tables::blank();
    let prepared = admit(bytes, wish, &mut tables)?;
    let marks = prepared.marked.marks;
    let places = prepared.cue.places;
    let within = early_enough(wish, places, prepared.moments);
    let words = width(prepared.moments.is_some());
    let room = space.len() / words;
    let sources = Sources {
        marks: &marks,
        star: &tables.star,
        lag: &tables.lag,
        needs: &tables.needs,
    };
    match lines::list(space, room, sources) {
        Err(needed) => Err(Unplanned::NoRoom(Extent {
            count: needed.count,
            width: words,
        })),
        Ok(k) => {
            let times = latest(space, k, within);
            finish(space, k, places, prepared.moments);
            Ok(Reached {
                width: words,
                count: k,
                timing: handed_back(wish, times, places),
            })
        }
    }
}

// The wish's times at the triggers in use, lowered until none lands too late.
fn early_enough(wish: Timing, p: Places, moments: Option<[u64; 6]>) -> LineWords
    requires { (t : Sheet) × PlacesOf (used t) t.triggers p × MomentsOf t moments × Good t ×
        (some_beyond t.triggers (component wish.at) ≡ false) }
    ensures { (t : Sheet) → PlacesOf (used t) t.triggers p → MomentsOf t moments → Good t →
        some_beyond t.triggers (component wish.at) ≡ false →
        TimingWords (cue_size t) (at_used t (lowered t (component wish.at))) result }
{
    let x = words_of(wish, p.triggers);
    match moments {
        Some(overruns) => times_in_use(lowered(x, overruns), p),
        None => times_in_use(x, p),
    }
}

// The times of the triggers in use, each at its own trigger, and the wish's at the spare ones: "No. 1 hands that number back."
fn handed_back(wish: Timing, times: Timing, p: Places) -> Timing
    requires { (s : ℕ → Bool) × (n : ℕ) × PlacesOf s n p }
    ensures { (s : ℕ → Bool) (n : ℕ) → PlacesOf s n p →
        result ≡ timing_of n (filled s (component wish.at) (component times.at)) }
{
    let wished = wish.at;
    let made = times.at;
    let mut at = [0i64; 6];
    let mut k: usize = 0;
    for j in 0..p.triggers {
        if has(p.used, j) {
            at[j] = made[k];
            k += 1;
        } else {
            at[j] = wished[j];
        }
    }
    Timing {
        count: p.triggers,
        at,
    }
}
