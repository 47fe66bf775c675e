// From what was read to all that the operations are made from: the cue's tables, the order check, M*, d, r, Δ, the kept triggers, the levels
// and what is compared there.
#![tactic(auto)]

ghost use Rattle.std.specs.Prelude.{◌≡◌, List, ℕ};
ghost use Rattle.sheet.specs.Sheet as spec;
ghost use Rattle.sheet.specs.Sheet.{got, read};
ghost use Rattle.sheet.specs.Cue.{used, cue_size, order_table, floor_by, cue_of};
ghost use Rattle.sheet.specs.Ordered.{ordered};
ghost use Rattle.reading.specs.Reading.{answer};
ghost use Rattle.cue.specs.Cue as theory;
ghost use Rattle.cue.specs.Cue.{timing};
ghost use Rattle.tables.specs.Held.{Holds, HoldsV};
ghost use Rattle.spares.specs.Using.{PlacesOf};
ghost use Rattle.moments.specs.Moments.{MomentsOf};
ghost use Rattle.preparing.specs.Prepared.{blank_tables, Worded, HoldsCue, CueFrom, Tabled, PreparedAs};

use candidates::Marks;
use moments::overruns;
use reading::{Measure, SheetWords};
use refusals::Refusal;
use spares::{Places, pick_tables, picked, places_of};

mod levels;
mod marks;

// The tables that an operation is made from, lent to those who fill and read them: the cue's order table and lags, M*, what the walk compares, and
// what step 6's w is made of.
#[derive(Clone, Copy)]
pub struct Tables {
    pub order: [[u64; 6]; 6],
    pub lag: [[u64; 6]; 6],
    pub star: [[u64; 6]; 6],
    pub gains: [[u64; 6]; 6],
    pub needs: [[u64; 6]; 6],
}

// A cue's sizes, floors and due marks as words, and which of the sheet's triggers it has. Its tables, lag and order, are lent beside it.
#[derive(Clone, Copy)]
pub struct CueWords {
    pub triggers: usize,
    pub panels: usize,
    pub floor: [u64; 6],
    pub due: [u64; 6],
    pub places: Places,
}

// The first `panels` places of `at` are the panels with a floor, those of `kept` their bytes.
#[derive(Clone, Copy)]
pub struct Packed {
    pub panels: usize,
    pub kept: [u8; 6],
    pub at: [u8; 6],
}

// What steps 3 and 4 give: the word of Δ and each panel's byte; and what the lines are drawn from.
#[derive(Clone, Copy)]
pub struct Marked {
    pub least: u64,
    pub kept: [u8; 6],
    pub marks: Marks,
}

// The cue, what steps 3 and 4 give, and, where the sheet has last moments, how late each of its triggers lands.
#[derive(Clone, Copy)]
pub struct Prepared {
    pub cue: CueWords,
    pub marked: Marked,
    pub moments: Option<[u64; 6]>,
}

impl Tables {
    // Tables to be filled.
    pub fn blank() -> Tables
        ensures { result ≡ blank_tables }
    {
        let none = [[0u64; 6]; 6];
        Tables {
            order: none,
            lag: none,
            star: none,
            gains: none,
            needs: none,
        }
    }
}

// The rows of a table in another one: row by row, since the library would need `memmove` for a table as a whole.
fn copy_rows(from: &[[u64; 6]; 6], to: &mut [[u64; 6]; 6])
    ensures { to.new ≡ from.now }
{
    for i in 0..6 {
        to[i] = from[i];
    }
}

// The one place where the words of a sheet become those of its cue: the lent tables are its order and its lags.
pub fn cue_of(t: &SheetWords, order: &mut [[u64; 6]; 6], lag: &mut [[u64; 6]; 6]) -> CueWords
    requires { (s : spec.Sheet) × Worded s t.now }
    ensures { (s : spec.Sheet) → Worded s t.now → CueFrom s order.new lag.new result }
{
    copy_rows(&t.lag, lag);
    *order = order_of(t);
    let places = places_of(order, lag, t.panels, t.triggers);
    pick_tables(order, lag, t.panels, places);
    let floor = floor_by(t);
    let due = due_by(t, lag, places);
    CueWords {
        triggers: places.count,
        panels: t.panels,
        floor,
        due,
        places,
    }
}

// The floors that the cue goes by: 0 for each panel under rule 2.
fn floor_by(t: &SheetWords) -> [u64; 6]
    requires { (s : spec.Sheet) × Worded s t.now }
    ensures { (s : spec.Sheet) → Worded s t.now → HoldsV s.panels (floor_by s.measure) result }
{
    match t.measure {
        Measure::Marks { floor, .. } => floor,
        Measure::Spread => [words::of_number(0); 6],
    }
}

// The due marks that the cue goes by: under rule 2 minus the largest lag of each of its triggers, whose lags are lent.
fn due_by(t: &SheetWords, lag: &[[u64; 6]; 6], places: Places) -> [u64; 6]
    requires { (s : spec.Sheet) × Worded s t.now × PlacesOf (used s) s.triggers places ×
        Holds s.panels (cue_size s) (cue_of s).lag lag.now }
    ensures { (s : spec.Sheet) → Worded s t.now → PlacesOf (used s) s.triggers places →
        Holds s.panels (cue_size s) (cue_of s).lag lag.now → HoldsV (cue_size s) (timing (cue_of s).due) result }
{
    match t.measure {
        Measure::Marks { due, .. } => picked(due, places),
        Measure::Spread => {
            let zero = words::of_number(0);
            let farthest = overruns(lag, [zero; 6], t.panels, places.count);
            tables::differences::rest(zero, farthest, places.count)
        }
    }
}

// The larger of the after table and land times lag: the product is over panels. A sheet without land lines has no such rules to multiply.
fn order_of(t: &SheetWords) -> [[u64; 6]; 6]
    requires { (s : spec.Sheet) × Worded s t.now }
    ensures { (s : spec.Sheet) → Worded s t.now → Holds s.triggers s.triggers (order_table s) result }
{
    match t.land {
        Some(lands) => {
            let waits = tables::product(&lands, &t.lag, t.triggers, t.panels, t.triggers);
            tables::joined(&t.after, &waits, t.triggers)
        }
        None => t.after,
    }
}

// Whether the order of a cue can be kept, and then M* and d.
pub fn closed_tables(
    cue: CueWords,
    order: &[[u64; 6]; 6],
    lag: &[[u64; 6]; 6],
    star: &mut [[u64; 6]; 6],
    through: &mut [[u64; 6]; 6],
) -> bool
    requires { (P : theory.Cue) × HoldsCue P order.now lag.now cue }
    ensures { (P : theory.Cue) → HoldsCue P order.now lag.now cue →
        Tabled P cue order.now lag.now star.new through.new result }
{
    let n = cue.triggers;
    if !order::closed(order, star, n) {
        return false;
    }
    *through = tables::product(lag, star, cue.panels, n, n);
    true
}

// All that an operation is made from, for what was read; or the refusal.
pub fn prepare(
    reading: Result<SheetWords, Refusal>,
    tables: &mut Tables,
) -> Result<Prepared, Refusal>
    requires { (b : List ℕ) × (reading ≡ answer (read b)) }
    ensures { (b : List ℕ) → reading ≡ answer (read b) → PreparedAs (ordered b) tables.new result }
{
    let sheet = reading?;
    prepare_sheet(&sheet, tables)
}

// The same for a sheet that was read; or 8.
pub fn prepare_sheet(sheet: &SheetWords, tables: &mut Tables) -> Result<Prepared, Refusal>
    requires { (s : spec.Sheet) × Worded s sheet.now }
    ensures { (b : List ℕ) (s : spec.Sheet) (x : List ℕ) → read b ≡ got s x → Worded s sheet.now →
        PreparedAs (ordered b) tables.new result }
{
    let cue = cue_of(sheet, &mut tables.order, &mut tables.lag);
    let mut through = [[0u64; 6]; 6];
    if !closed_tables(
        cue,
        &tables.order,
        &tables.lag,
        &mut tables.star,
        &mut through,
    ) {
        return Err(Refusal::NoTimes);
    }
    let marked = marks::marks_of(
        cue,
        &tables.star,
        &through,
        &mut tables.gains,
        &mut tables.needs,
    );
    Ok(Prepared {
        cue,
        marked,
        moments: moments_of(sheet),
    })
}

// How late each trigger of a sheet with a last line lands.
fn moments_of(t: &SheetWords) -> Option<[u64; 6]>
    requires { (s : spec.Sheet) × Worded s t.now }
    ensures { (s : spec.Sheet) → Worded s t.now → MomentsOf s result }
{
    match t.last {
        Some(last) => Some(overruns(&t.lag, last, t.panels, t.triggers)),
        None => None,
    }
}
