// The test for extreme: a line is extreme exactly when the closures of its triggers have a trigger in common. A set is six bits in a byte.
#![tactic(auto)]

ghost use Rattle.std.specs.Prelude.{◌≡◌, List, ℕ, ◌+◌, ◌≤◌, ◌<◌, get_or};
ghost use Rattle.maxplus.specs.Entry.{◌⊗◌, inv, Present};
ghost use Rattle.words.specs.Words.{entry, Close};
ghost use Rattle.cue.specs.Cue.{Cue};
ghost use Rattle.cue.specs.Method.{least};
ghost use Rattle.cue.specs.Closures.{Common};
ghost use Rattle.sheet.specs.Sheet.{limit};
ghost use Rattle.sheet.specs.Sizes.{star_size, ask_size, shifted_size, late_size};
ghost use Rattle.tables.specs.Held.{meant, meant_v, HoldsV, Closely, CloselyV, Says};
ghost use Rattle.trigger_sets.specs.Sets.{Has, SetOf};
ghost use Rattle.tables.specs.Lines.{line_of};
ghost use Rattle.candidates.specs.Rays.{Held, HeldSets, TightSets, Reaching, Inside, Closed};
ghost use Rattle.candidates.specs.Drawable.{Drawable, MarksNear};
ghost use Rattle.cue.specs.Sizes.{size_limit};

use crate::sums::{places, reached};
use candidates::Sources;
use tables::largest::largest;
use words::LineWords;

mod sums;

// In the place of a panel's set where the panel is not tight: six bits never hold it, so that one test serves both; an Option would be asked for
// apart.
const NEVER: u8 = 64;

// Whether some trigger is in the closure of every trigger of the line.
pub fn extreme(line: LineWords, sources: Sources) -> bool
    requires { MarksNear line.count sources.marks.now sources.star.now sources.lag.now × (line.count ≡ sources.marks.now.triggers)
        × CloselyV line.count shifted_size line.at }
    ensures { (n : ℕ) (P : Cue) (needs : List (List ℕ)) →
        Drawable n P sources.entry.marks.now sources.entry.star.now sources.entry.lag.now needs →
        Says (Common n P (least n P) (line_of n line.at)) result }
{
    let due = sources.marks.due;
    let asks = sources.marks.asks;
    let panels = sources.marks.panels;
    let late = lateness(line, due);
    let most = largest(late, line.count);
    let held = held_sets(sources.star, line);
    let front = joined(held, late, most, line.count);
    let tight = tight_sets(sources.lag, asks, line, most, panels);
    common(line, held, tight, front, panels) != 0
}

// c(j) − q(j)
fn lateness(line: LineWords, due: [u64; 6]) -> [u64; 6]
    requires { (line.count ≤ size_limit) × CloselyV line.count shifted_size line.at × CloselyV line.count limit due }
    ensures is { HoldsV line.count (λ j. meant_v line.at j ⊗ inv (meant_v due j)) result }
    ensures close { CloselyV line.count late_size result }
{
    let n = line.count;
    let mut r = [0u64; 6];
    for j in 0..n {
        r[j] = words::minus(line.at[j], due[j]);
    }
    r
}

// A(k) for each trigger k.
fn held_sets(star: &[[u64; 6]; 6], line: LineWords) -> [u8; 6]
    requires { (line.count ≤ size_limit) × Closely line.count line.count star_size star.now
        × CloselyV line.count shifted_size line.at }
    ensures { HeldSets line.count (meant star.now) (meant_v line.at) result }
{
    let n = line.count;
    let mut r = [0u8; 6];
    for k in 0..n {
        r[k] = held_by(star, k, line);
    }
    r
}

// A(k): the j with M*(k,j) + c(j) = c(k). No closure asks for that of an absent c(k).
fn held_by(star: &[[u64; 6]; 6], k: usize, line: LineWords) -> u8
    requires { (line.count ≤ size_limit) × (k < line.count) × Closely line.count line.count star_size star.now
        × CloselyV line.count shifted_size line.at }
    ensures { SetOf (λ j. Held line.count (meant star.now) (meant_v line.at) k j) result }
{
    let word = line.at[k];
    if !words::present(word) {
        return 0;
    }
    places(star, k, line, word)
}

// A(R): what is held by the triggers that reach the largest lateness.
fn joined(held: [u8; 6], late: [u64; 6], most: u64, n: usize) -> u8
    requires { (n ≤ size_limit) × ((l : ℕ) → l < n → get_or held l 0 < 64) }
    ensures { SetOf (λ j. (l : ℕ) × (l < n) × ((get_or late l 0 ≡ most) × Has (get_or held l 0) j)) result }
{
    let mut set: u8 = 0;
    for l in 0..n {
        if late[l] == most {
            set |= held[l];
        }
    }
    set
}

// For each panel that is tight the triggers that reach its landing, else NEVER.
fn tight_sets(
    lag: &[[u64; 6]; 6],
    asks: [u64; 6],
    line: LineWords,
    most: u64,
    panels: usize,
) -> [u8; 6]
    requires { (line.count ≤ size_limit) × (panels ≤ size_limit) × Closely panels line.count limit lag.now
        × CloselyV panels ask_size asks × CloselyV line.count shifted_size line.at × Close late_size most }
    ensures { TightSets panels line.count (meant lag.now) (meant_v asks) (meant_v line.at) (entry most) result }
{
    let mut r = [NEVER; 6];
    for i in 0..panels {
        r[i] = reaching(lag, i, asks[i], line, most);
    }
    r
}

// A panel with a floor is tight when it lands just where Δ asks.
fn reaching(lag: &[[u64; 6]; 6], i: usize, ask: u64, line: LineWords, most: u64) -> u8
    requires { (i < 6) × (line.count ≤ size_limit) × Closely (i + 1) line.count limit lag.now × Close ask_size ask
        × CloselyV line.count shifted_size line.at × Close late_size most }
    ensures { Reaching line.count (λ j. meant lag.now i j ⊗ meant_v line.at j) (entry ask) (entry most) result }
{
    if !words::present(ask) {
        return NEVER;
    }
    let set = reached(lag, i, line, words::plus(ask, most));
    if set == 0 { NEVER } else { set }
}

// Some tight panel's reaching triggers all lie in the set.
fn fires(tight: [u8; 6], held: u8, panels: usize) -> bool
    requires { panels ≤ size_limit }
    ensures { Says (Inside tight panels held) result }
{
    tight.iter().take(panels).any(|set| *set & held == *set)
}

// cl(k): A(k), with A(R) where some panel fires.
fn closed(held: u8, tight: [u8; 6], front: u8, panels: usize) -> u8
    requires { (panels ≤ size_limit) × (held < 64) × (front < 64) }
    ensures { SetOf (λ j. Closed tight panels front held j) result }
{
    if fires(tight, held, panels) {
        held | front
    } else {
        held
    }
}

// The triggers in the closure of every present component. An empty set stays empty, so it ends the loop.
fn common(line: LineWords, held: [u8; 6], tight: [u8; 6], front: u8, panels: usize) -> u8
    requires { (line.count ≤ size_limit) × (panels ≤ size_limit) × ((k : ℕ) → k < line.count → get_or held k 0 < 64) × (front < 64) }
    ensures { SetOf (λ j. (k : ℕ) → k < line.count → Present (meant_v line.at k) → Closed tight panels front (get_or held k 0) j) result }
{
    let n = line.count;
    let mut all: u8 = 63;
    for k in 0..n {
        if words::present(line.at[k]) {
            all = all & closed(held[k], tight, front, panels);
            if all == 0 {
                return 0;
            }
        }
    }
    all
}
