// The walk of document 01, step 5, over the panels with a floor: level l is the l-th of them, kept[l] the mask of its kept triggers (bit 0
// for trigger 1), gains[l][j] a word in whose order d(i,j) − p(i) stands, and needs[l][j] the word of p(i) − Δ − d(i,j). A walk keeps the
// untried triggers of each open level and its picks; a panel's mask is narrowed by the picks on the way down, so no mask is restored. What
// the panels fixed so far ask of each trigger, step 6's w, is kept on the way down and put back on the way up.
#![tactic(auto)]

ghost use Rattle.std.specs.Prelude.{◌≡◌, ◌%◌, ◌<◌, ◌≤◌};
ghost use Rattle.walk.specs.State.{start_of, counts_of};
ghost use Rattle.walk.specs.Inner.{TryReady, Tried, FixedReady, Descends, GivenUp, Resumed};
ghost use Rattle.walk.specs.Steps.{StepReady, StepTaken, stepped};
ghost use Rattle.walk.specs.Trace.{Masks};
ghost use Rattle.cue.specs.Sizes.{size_limit};

use crate::narrowing::narrowed;
use crate::remembering::{ask_of, put_back};
use trigger_sets::{low, others};
use words::LineWords;

pub mod narrowing;
pub mod remembering;

// What a step gives. It comes back beside the next state in a struct of its own: document 01's form, which docs/DECISIONS.md names.
#[derive(Clone, Copy)]
pub enum Outcome {
    Selection,
    End,
}

// The levels of a walk: how many panels have a floor, their masks, and the words of what they gain and of what they ask.
#[derive(Clone, Copy)]
pub struct Levels<'a> {
    pub count: usize,
    pub kept: &'a [u8; 6],
    pub gains: &'a [[u64; 6]; 6],
    pub needs: &'a [[u64; 6]; 6],
}

// Where a walk stands: how many panels are fixed, the fixings so far, the untried triggers of the open levels and the picks of the fixed
// ones: six bits and three bits for each, the deepest level's lowest. Open are the fixed levels and, unless every panel is fixed, the one
// below them. In words a step changes no memory: of arrays by value each step would make copies, and wait for them.
#[derive(Clone, Copy)]
pub struct Place {
    pub depth: usize,
    pub fixings: u32,
    pub left: u64,
    pub picks: u64,
}

// The walk's state: where it stands, step 6's w of the panels fixed there, and for each of these the word that its trigger had in w before, the
// deepest panel's first.
#[derive(Clone, Copy)]
pub struct Walk {
    pub place: Place,
    pub bounds: LineWords,
    pub replaced: [u64; 6],
}

#[derive(Clone, Copy)]
pub struct Stepped {
    pub next: Walk,
    pub outcome: Outcome,
}

#[derive(Clone, Copy)]
pub struct Counts {
    pub steps: u32,
    pub selections: u32,
}

// Trying the triggers of the panel below those fixed: the next one is fixed; where none is left, the panel above goes on, and what it had asked
// is put back.
// A remainder by 64 fits a byte and a place a word, so `as` loses nothing, where TryFrom would add an error.
// Says whether there is a selection. The state is lent, and no struct or enum comes back: it would be copied at each call.
// So are the levels: handed over by value each call has a copy of its own, the calls do not become a loop, and a walk takes five times as long.
#[cycle(descending_trying)]
fn trying(walk: &mut Walk, levels: &Levels) -> bool
    requires { TryReady levels.now.kept.now levels.now.gains.now levels.now.count walk.old.place }
    ensures { Tried levels.now.kept.now levels.now.gains.now levels.now.needs.now levels.now.count walk.old (stepped result walk.new) }
{
    let open = walk.place.left;
    let m = (open % 64) as u8;
    let d = walk.place.depth;
    if m == 0 {
        if d == 0 {
            return false;
        }
        walk.place.left = open / 64;
        give_up(walk);
        return trying(walk, levels);
    }
    let rest = others(m);
    let j = usize::from(low(m));
    ask_of(
        &mut walk.bounds.at,
        &mut walk.replaced,
        j,
        levels.needs[d][j],
    );
    walk.place.left = open / 64 * 64 + u64::from(rest);
    walk.place.picks = walk.place.picks * 8 + j as u64;
    walk.place.fixings += 1;
    walk.place.depth = d + 1;
    descending(walk, levels)
}

// Down from a panel that has just been fixed: to the next one, unless the selection is whole.
#[cycle(descending_trying)]
fn descending(walk: &mut Walk, levels: &Levels) -> bool
    requires { FixedReady levels.now.kept.now levels.now.gains.now levels.now.count walk.old.place }
    ensures { Descends levels.now.kept.now levels.now.gains.now levels.now.needs.now levels.now.count walk.old (stepped result walk.new) }
{
    let next = walk.place.depth;
    if next == levels.count {
        return true;
    }
    let mask = narrowed(levels.kept, levels.gains, walk.place.picks, next);
    walk.place.left = walk.place.left * 64 + u64::from(mask);
    trying(walk, levels)
}

// The deepest panel fixed gives up its trigger: what it asked of it is put back.
fn give_up(walk: &mut Walk)
    requires { (0 < walk.old.place.depth) × (walk.old.place.picks % 8 < 6) }
    ensures { GivenUp walk.old walk.new }
{
    let chosen = walk.place.picks;
    put_back(
        &mut walk.bounds.at,
        &mut walk.replaced,
        (chosen % 8) as usize,
    );
    walk.place.picks = chosen / 8;
    walk.place.depth -= 1;
}

// Where every panel is fixed, the last one gives up its trigger, to go on with the next.
fn resume(walk: &mut Walk, count: usize)
    requires { walk.old.place.depth ≡ count → (0 < walk.old.place.depth) × (walk.old.place.picks % 8 < 6) }
    ensures { Resumed count walk.old walk.new }
{
    if walk.place.depth == count {
        give_up(walk);
    }
}

impl Walk {
    // Before the first step, for so many triggers: nothing is fixed, so w is absent everywhere.
    pub fn start(kept: &[u8; 6], triggers: usize) -> Walk
        ensures { result ≡ start_of kept.now triggers }
    {
        let place = Place {
            depth: 0,
            fixings: 0,
            left: u64::from(kept[0]),
            picks: 0,
        };
        let bounds = LineWords {
            count: triggers,
            at: [0u64; 6],
        };
        Walk {
            place,
            bounds,
            replaced: [0u64; 6],
        }
    }

    // The next selection, or the end; after the end the end again, unchanged. Where every panel is fixed, the last one goes on.
    pub fn step(self, levels: &Levels) -> Stepped
        requires { StepReady levels.now.kept.now levels.now.gains.now levels.now.count self.place }
        ensures { StepTaken levels.now.kept.now levels.now.gains.now levels.now.needs.now levels.now.count self result }
    {
        let mut next = self;
        resume(&mut next, levels.count);
        let found = trying(&mut next, levels);
        let outcome = if found {
            Outcome::Selection
        } else {
            Outcome::End
        };
        Stepped { next, outcome }
    }
}

// The fixings and the selections of the whole walk.
pub fn count(levels: &Levels, triggers: usize) -> Counts
    requires { (0 < levels.now.count) × (levels.now.count ≤ size_limit) × Masks levels.now.kept.now }
    ensures { result ≡ counts_of levels.now.kept.now levels.now.gains.now levels.now.count }
{
    let mut walk = Walk::start(levels.kept, triggers);
    let mut n: u32 = 0;
    loop {
        let s = walk.step(levels);
        walk = s.next;
        match s.outcome {
            Outcome::End => {
                return Counts {
                    steps: walk.place.fixings,
                    selections: n,
                };
            }
            Outcome::Selection => {
                n += 1;
            }
        }
    }
}
