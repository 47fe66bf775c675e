// The least lines above a last one: those of rays, which are made by adding one panel with a floor after the other.
#![tactic(auto)]

ghost use Rattle.std.specs.Prelude.{List, [], ◌∷◌, ◌++◌, ℕ, ◌+◌, ◌≤◌, ◌<◌, length, take, ◌≡◌, true};
ghost use Rattle.maxplus.specs.Finite.{map_l};
ghost use Rattle.maxplus.specs.Line as maxplus;
ghost use Rattle.cue.specs.Cue.{Cue};
ghost use Rattle.cue.specs.Method.{least};
ghost use Rattle.cue.specs.Closures.{Common};
ghost use Rattle.sheet.specs.Sizes.{starred_size, shifted_size};
ghost use Rattle.tables.specs.Held.{CloselyV};
ghost use Rattle.tables.specs.Lines.{Sized, line_of};
ghost use Rattle.candidates.specs.Drawable.{Drawable};
ghost use Rattle.buffer.specs.Buffer.{room, row};
ghost use Rattle.rays.specs.Rays.{places, Rows};
ghost use Rattle.gather.specs.Gathering.{Gathered, drawn, Sure, Spread, Whole, CarriedTo, Considered, Filled};

use buffer::{Buffer, Store};
use candidates::Sources;
use candidates::drawing::{first_ray, normal};
use candidates::order::below;
use extremes::extreme;
use rays::{PLACES, Panel, Rays, add_panel, all_meet, expand};
use words::LineWords;

// Puts a line in at its place if it is above the last one, new and extreme, which may be known. Most lines are there already, so a line is
// looked up before it is tested.
fn consider(buffer: &mut Buffer, last: LineWords, line: LineWords, known: bool, sources: Sources)
    requires { let M = sources.marks.now in ((P : Cue) × (needs : List (List ℕ)) × (C : List (maxplus.Line M.triggers))
        × Drawable M.triggers P M sources.star.now sources.lag.now needs × Gathered M.triggers P last.at C buffer.old.len buffer.old.rows)
        × Sized M.triggers last.at × (line.count ≡ M.triggers) × Sized M.triggers line.at
        × CloselyV M.triggers shifted_size line.at }
    ensures { let M = sources.entry.marks.now in (P : Cue) (needs : List (List ℕ)) (C : List (maxplus.Line M.triggers)) →
        Drawable M.triggers P M sources.entry.star.now sources.entry.lag.now needs →
        (known ≡ true → Common M.triggers P (least M.triggers P) (line_of M.triggers line.at)) →
        Gathered M.triggers P last.at C buffer.old.len buffer.old.rows →
        Gathered M.triggers P last.at (C ++ line_of M.triggers line.at ∷ []) buffer.new.len buffer.new.rows }
{
    if !below(last, line) {
        return;
    }
    let at = buffer.place(line);
    if !buffer.fresh(at, line) {
        return;
    }
    if known {
        buffer.insert(at, line);
        return;
    }
    if !extreme(line, sources) {
        return;
    }
    buffer.insert(at, line);
}

// The lines of a set of rays, which may be known to be extreme.
fn consider_rays(buffer: &mut Buffer, last: LineWords, set: &Rays, known: bool, sources: Sources)
    requires { let M = sources.marks.now in ((P : Cue) × (needs : List (List ℕ)) × (C : List (maxplus.Line M.triggers))
        × Drawable M.triggers P M sources.star.now sources.lag.now needs × Sure known M.triggers P set.now.rows set.now.len
        × Gathered M.triggers P last.at C buffer.old.len buffer.old.rows)
        × Sized M.triggers last.at × (set.now.len ≤ places) × (length set.now.rows ≡ places)
        × ((k : ℕ) → k < set.now.len → CloselyV M.triggers starred_size (row set.now.rows k)) }
    ensures { let M = sources.entry.marks.now in (P : Cue) (needs : List (List ℕ)) (C : List (maxplus.Line M.triggers)) →
        Drawable M.triggers P M sources.entry.star.now sources.entry.lag.now needs →
        Sure known M.triggers P set.now.rows set.now.len →
        Gathered M.triggers P last.at C buffer.old.len buffer.old.rows → Gathered M.triggers P last.at
        (C ++ map_l (drawn M.triggers) (take set.now.len set.now.rows)) buffer.new.len buffer.new.rows }
{
    let count = sources.marks.triggers;
    for k in 0..set.len {
        let at = set.rows[k];
        let line = normal(LineWords { count, at });
        consider(buffer, last, line, known, sources);
    }
}

// Level by level: the rays from a place on, with the panels from a level on. Where what comes of them has no room they are taken in parts, whose
// lines need not be extreme.
fn spread(
    buffer: &mut Buffer,
    last: LineWords,
    set: &Rays,
    from: usize,
    level: usize,
    sources: Sources,
)
    requires { let M = sources.marks.now in ((P : Cue) × (C : List (maxplus.Line M.triggers))
        × Drawable M.triggers P M sources.star.now sources.lag.now sources.needs.now
        × Gathered M.triggers P last.at C buffer.old.len buffer.old.rows)
        × Sized M.triggers last.at × (set.now.len ≤ places) × (length set.now.rows ≡ places) × (level ≤ M.levels)
        × Rows M.triggers set.now.len set.now.rows }
    ensures { Spread sources.entry.marks.now sources.entry.star.now sources.entry.lag.now sources.entry.needs.now last.at
        set.now.rows from set.now.len level buffer.old.len buffer.old.rows buffer.new.len buffer.new.rows }
{
    if level == sources.marks.levels {
        consider_rays(buffer, last, set, false, sources);
        return;
    }
    if set.len <= from {
        return;
    }
    let panel = Panel {
        count: sources.marks.triggers,
        mask: sources.marks.kept[level],
        wants: &sources.needs[level],
        star: sources.star,
    };
    // Rays that all meet the panel are carried on as they are.
    if from == 0 && all_meet(set, panel) {
        spread(buffer, last, set, 0, level + 1, sources);
        return;
    }
    let mut next = Store {
        rows: [[0u64; 6]; PLACES],
        len: 0,
    };
    let to = expand(&mut next, set, from, panel);
    spread(buffer, last, &next, 0, level + 1, sources);
    spread(buffer, last, set, to, level, sources);
}

// A trigger's first ray, alone in a set, with one level after the other; to the end, or to a level with which not all rays have room. How many
// levels the rays then have.
fn carry(set: &mut Rays, next: &mut Rays, sources: Sources) -> usize
    requires { let M = sources.marks.now in ((P : Cue) × (lags : List (List ℕ)) × Drawable M.triggers P M sources.star.now lags sources.needs.now)
        × (length set.old.rows ≡ places) × (length next.old.rows ≡ places) × Rows M.triggers 1 set.old.rows }
    ensures { (length next.new.rows ≡ places) ×
        CarriedTo sources.entry.marks.now sources.entry.star.now sources.entry.needs.now set.old.rows set.new.rows result set.new.len }
{
    set.len = 1;
    for level in 0..sources.marks.levels {
        let panel = Panel {
            count: sources.marks.triggers,
            mask: sources.marks.kept[level],
            wants: &sources.needs[level],
            star: sources.star,
        };
        if !add_panel(set, next, panel) {
            return level;
        }
    }
    sources.marks.levels
}

// The lines of a trigger's least rays, which are extreme; or where these have not got all levels, of what comes of them.
fn conclude(buffer: &mut Buffer, last: LineWords, set: &Rays, level: usize, sources: Sources)
    requires { let M = sources.marks.now in ((P : Cue) × (C : List (maxplus.Line M.triggers))
        × Drawable M.triggers P M sources.star.now sources.lag.now sources.needs.now
        × Gathered M.triggers P last.at C buffer.old.len buffer.old.rows)
        × Sized M.triggers last.at
        × ((t : ℕ) × (t < M.triggers) × Whole M sources.star.now sources.needs.now t level set.now.rows set.now.len)
        × (level ≤ M.levels) × (set.now.len ≤ places) × (length set.now.rows ≡ places) }
    ensures { let M = sources.entry.marks.now in (t : ℕ) → t < M.triggers →
        Whole M sources.entry.star.now sources.entry.needs.now t level set.now.rows set.now.len →
        Considered M sources.entry.star.now sources.entry.lag.now sources.entry.needs.now last.at t
        buffer.old.len buffer.old.rows buffer.new.len buffer.new.rows }
{
    if level == sources.marks.levels {
        consider_rays(buffer, last, set, true, sources);
    } else {
        spread(buffer, last, set, 0, level, sources);
    }
}

// The least lines above the last one, as many as there is room for: those of each trigger's rays. Six words of 0, no component at all, stand
// below every line.
pub fn gather(buffer: &mut Buffer, last: LineWords, sources: Sources)
    requires { let M = sources.marks.now in ((P : Cue) × Drawable M.triggers P M sources.star.now sources.lag.now sources.needs.now)
        × Sized M.triggers last.at × (length buffer.old.rows ≡ room) }
    ensures { let M = sources.entry.marks.now in (P : Cue) →
        Drawable M.triggers P M sources.entry.star.now sources.entry.lag.now sources.entry.needs.now →
        Filled M.triggers P last.at buffer.new.len buffer.new.rows }
{
    let n = sources.marks.triggers;
    let pulls = sources.marks.pulls;
    let mut set = Store {
        rows: [[0u64; 6]; PLACES],
        len: 0,
    };
    let mut next = Store {
        rows: [[0u64; 6]; PLACES],
        len: 0,
    };
    buffer.len = 0;
    for t in 0..n {
        let first = first_ray(sources.star, pulls[t], t, n);
        let words = first.at;
        set.rows[0] = words;
        let level = carry(&mut set, &mut next, sources);
        conclude(buffer, last, &set, level, sources);
    }
}
