// Sets of rays, of which only the least matter, and what comes of them with one panel more.
#![tactic(auto)]

ghost use Rattle.std.specs.Prelude.{◌≡◌, ℕ, ◌+◌, ◌≤◌, ◌<◌, length};
ghost use Rattle.words.specs.Words.{entry, Close};
ghost use Rattle.cue.specs.Sizes.{size_limit};
ghost use Rattle.sheet.specs.Sizes.{star_size, need_down, starred_size};
ghost use Rattle.tables.specs.Held.{meant, meant_v, Closely, CloselyV, Says};
ghost use Rattle.tables.specs.Lines.{Carries};
ghost use Rattle.buffer.specs.Buffer.{row};
ghost use Rattle.rays.specs.Rays.{places, Under, Covered, Thinned, Joined, Meets, joined_of, RaisedAll, Branched, Expanded, Kept, Added, Rows};

use buffer::Store;
use trigger_sets::has;
use words::LineWords;

// How many rays a set has room for: more than come of any sheet known.
pub const PLACES: usize = 48;

pub type Rays = Store<PLACES>;

// A panel with a floor, for rays of count triggers: its kept triggers, what it wants of each, and M*.
#[derive(Clone, Copy)]
pub struct Panel<'a> {
    pub count: usize,
    pub mask: u8,
    pub wants: &'a [u64; 6],
    pub star: &'a [[u64; 6]; 6],
}

// a lies below b in every component.
fn under(a: &[u64; 6], b: &[u64; 6]) -> bool
    ensures { Says (Under a.now b.now) result }
{
    a.iter().zip(b.iter()).all(|(x, y)| *x <= *y)
}

// Some ray of the set lies below w.
fn covered(set: &Rays, w: LineWords) -> bool
    requires { set.now.len ≤ places }
    ensures { Says (Covered set.now.rows set.now.len w.at) result }
{
    let words = w.at;
    set.rows[..set.len].iter().any(|ray| under(ray, &words))
}

// Takes the rays that lie above w out of the set.
fn thin(set: &mut Rays, w: LineWords)
    requires { set.old.len ≤ places }
    ensures { Thinned set.old.rows set.old.len w.at set.new.rows set.new.len }
{
    let words = w.at;
    let mut left: usize = 0;
    for k in 0..set.len {
        let ray = set.rows[k];
        if !under(&words, &ray) {
            set.rows[left] = ray;
            left += 1;
        }
    }
    set.len = left;
}

// Puts w into the set, unless one of its rays lies below w.
fn join(set: &mut Rays, w: LineWords)
    requires { set.old.len < places }
    ensures { Joined set.old.rows set.old.len w.at set.new.rows set.new.len }
{
    if covered(set, w) {
        return;
    }
    thin(set, w);
    let words = w.at;
    set.rows[set.len] = words;
    set.len += 1;
}

// Some kept trigger has what the panel wants of it.
fn meets(x: LineWords, panel: Panel) -> bool
    requires { x.count ≤ size_limit }
    ensures { Says (Meets x.count x.at panel.entry.mask panel.entry.wants.now) result }
{
    for j in 0..x.count {
        if has(panel.mask, j) && panel.wants[j] <= x.at[j] {
            return true;
        }
    }
    false
}

// x joined with column s of M*, shifted so that s has what is wanted of it.
fn raised(x: LineWords, star: &[[u64; 6]; 6], s: usize, want: u64) -> LineWords
    requires { (x.count ≤ size_limit) × (s < x.count) × CloselyV x.count starred_size x.at
        × Closely x.count x.count star_size star.now × Close need_down want }
    ensures { Carries x.count starred_size (joined_of (meant star.now) (meant_v x.at) (entry want) s) result }
{
    let n = x.count;
    let mut r = [0u64; 6];
    for j in 0..n {
        r[j] = words::larger(x.at[j], words::plus(want, star[j][s]));
    }
    LineWords { count: n, at: r }
}

// Each kept trigger gives a ray: x, raised.
fn raise(set: &mut Rays, x: LineWords, panel: Panel)
    requires { (x.count ≤ size_limit) × (set.old.len + x.count ≤ places) × (length set.old.rows ≡ places)
        × CloselyV x.count starred_size x.at × Closely x.count x.count star_size panel.star.now × CloselyV x.count need_down panel.wants.now }
    ensures { RaisedAll x.count x.at panel.entry.mask panel.entry.wants.now panel.entry.star.now x.count
        set.old.rows set.old.len set.new.rows set.new.len }
{
    for s in 0..x.count {
        if has(panel.mask, s) {
            join(set, raised(x, panel.star, s, panel.wants[s]));
        }
    }
}

// What comes of x with one panel more.
fn branch(set: &mut Rays, x: LineWords, panel: Panel)
    requires { (0 < x.count) × (x.count ≤ size_limit) × (set.old.len + x.count ≤ places) × (length set.old.rows ≡ places)
        × CloselyV x.count starred_size x.at × Closely x.count x.count star_size panel.star.now × CloselyV x.count need_down panel.wants.now }
    ensures { Branched x.count x.at panel.entry.mask panel.entry.wants.now panel.entry.star.now
        set.old.rows set.old.len set.new.rows set.new.len }
{
    if !meets(x, panel) {
        raise(set, x, panel);
        return;
    }
    join(set, x);
}

// What comes of the rays of a set from a place on, of as many as there is room for, and the place reached.
pub fn expand(next: &mut Rays, set: &Rays, from: usize, panel: Panel) -> usize
    requires { (0 < panel.count) × (panel.count ≤ size_limit) × (from < set.now.len) × (set.now.len ≤ places)
        × Rows panel.count set.now.len set.now.rows × Closely panel.count panel.count star_size panel.star.now
        × CloselyV panel.count need_down panel.wants.now }
    ensures { (from < result) × (result ≤ set.now.len)
        × Expanded set.now.rows from result panel.entry.mask panel.entry.wants.now panel.entry.star.now panel.entry.count
        next.new.rows next.new.len }
{
    next.len = 0;
    for k in from..set.len {
        if next.len + panel.count > PLACES {
            return k;
        }
        let words = set.rows[k];
        let x = LineWords {
            count: panel.count,
            at: words,
        };
        branch(next, x, panel);
    }
    set.len
}

// Whether every ray of a set meets a panel.
pub fn all_meet(set: &Rays, panel: Panel) -> bool
    requires { (panel.count ≤ size_limit) × (set.now.len ≤ places) }
    ensures { Says ((k : ℕ) → k < set.now.len →
        Meets panel.entry.count (row set.now.rows k) panel.entry.mask panel.entry.wants.now) result }
{
    let count = panel.count;
    set.rows[..set.len]
        .iter()
        .all(|ray| meets(LineWords { count, at: *ray }, panel))
}

// The rays of one set in the place of those of another.
fn keep(set: &mut Rays, next: &Rays)
    requires { next.now.len ≤ places }
    ensures { Kept next.now.rows next.now.len set.new.rows × (set.new.len ≡ next.now.len) }
{
    set.len = next.len;
    set.rows[..next.len].copy_from_slice(&next.rows[..next.len]);
}

// One panel more for a whole set, if what comes of all its rays has room, and whether it has. Rays that all meet the panel are carried on as they
// are.
pub fn add_panel(set: &mut Rays, next: &mut Rays, panel: Panel) -> bool
    requires { (0 < panel.count) × (panel.count ≤ size_limit) × (set.old.len ≤ places) × (length set.old.rows ≡ places)
        × (length next.old.rows ≡ places) × Rows panel.count set.old.len set.old.rows × Closely panel.count panel.count star_size panel.star.now
        × CloselyV panel.count need_down panel.wants.now }
    ensures { (length next.new.rows ≡ places) × Added set.old.rows set.old.len panel.entry.mask panel.entry.wants.now panel.entry.star.now
        panel.entry.count set.new.rows set.new.len result }
{
    if all_meet(set, panel) {
        return true;
    }
    let to = expand(next, set, 0, panel);
    if to < set.len {
        return false;
    }
    keep(set, next);
    true
}
