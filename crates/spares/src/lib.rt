// Spare triggers: which of a sheet's triggers are in use; rows and tables of those alone; and a set of them with each trigger at its own bit.
#![tactic(auto)]

ghost use Rattle.std.specs.Prelude.{◌≡◌, [], Bool, false, ℕ, ◌≤◌, ◌<◌, T, get_or};
ghost use Rattle.maxplus.specs.Finite.{byte_of};
ghost use Rattle.maxplus.specs.Packing.{filled};
ghost use Rattle.cue.specs.Sizes.{size_limit};
ghost use Rattle.trigger_sets.specs.Sets.{bit};
ghost use Rattle.tables.specs.Held.{meant};
ghost use Rattle.spares.specs.Using.{tied, PlacesOf, Pickable, Picked, PickedTables};

use tables::column;
use tables::largest::largest;
use trigger_sets::has;

// The triggers in use, in sheet order: the first `count` places of `at`. As sets: these, and the others, which are spare.
#[derive(Clone, Copy)]
pub struct Places {
    pub triggers: usize,
    pub count: usize,
    pub at: [u8; 6],
    pub used: u8,
    pub spares: u8,
}

// Whether a trigger has a lag, or an entry of the order table in its row or column.
fn in_use(order: &[[u64; 6]; 6], lag: &[[u64; 6]; 6], j: usize, m: usize, n: usize) -> bool
    requires { (j < 6) × (m ≤ size_limit) × (n ≤ size_limit) }
    ensures { result ≡ tied m n (meant order.now) (meant lag.now) j }
{
    words::present(largest(column(lag, j), m))
        || words::present(largest(order[j], n))
        || words::present(largest(column(order, j), n))
}

// The places of the triggers in use, for n triggers and m panels. A place is below six, so `as` loses nothing, where TryFrom would add an error.
pub fn places_of(order: &[[u64; 6]; 6], lag: &[[u64; 6]; 6], m: usize, n: usize) -> Places
    requires { (m ≤ size_limit) × (n ≤ size_limit) }
    ensures { (s : ℕ → Bool) → ((j : ℕ) → T (s j) → j < n) →
        ((j : ℕ) → j < n → s j ≡ tied m n (meant order.now) (meant lag.now) j) → PlacesOf s n result }
{
    let mut at = [0u8; 6];
    let mut count: usize = 0;
    let mut used: u8 = 0;
    let mut spares: u8 = 0;
    for j in 0..n {
        let bit = 1u8 << j;
        if in_use(order, lag, j, m, n) {
            at[count] = j as u8;
            count += 1;
            used += bit;
        } else {
            spares += bit;
        }
    }
    Places {
        triggers: n,
        count,
        at,
        used,
        spares,
    }
}

// The words of the triggers in use, absent past them.
pub fn picked(row: [u64; 6], p: Places) -> [u64; 6]
    requires { Pickable p }
    ensures { Picked p row result }
{
    let mut r = [0u64; 6];
    for k in 0..p.count {
        r[k] = row[usize::from(p.at[k])];
    }
    r
}

// The first rows of a table, of the triggers in use alone.
fn picked_columns(table: &[[u64; 6]; 6], rows: usize, p: Places) -> [[u64; 6]; 6]
    requires { (rows ≤ size_limit) × Pickable p }
    ensures { (i : ℕ) → i < rows → Picked p (get_or table.now i []) (get_or result i []) }
{
    let mut r = [[0u64; 6]; 6];
    for i in 0..rows {
        r[i] = picked(table[i], p);
    }
    r
}

// The rows of the triggers in use.
fn picked_rows(table: &[[u64; 6]; 6], p: Places) -> [[u64; 6]; 6]
    requires { Pickable p }
    ensures { (k : ℕ) → k < p.count → get_or result k [] ≡ get_or table.now (get_or p.at k 0) [] }
{
    let mut r = [[0u64; 6]; 6];
    for k in 0..p.count {
        r[k] = table[usize::from(p.at[k])];
    }
    r
}

// The tables of the triggers in use alone, where they stand. With no spare trigger every word is at its place already.
pub fn pick_tables(order: &mut [[u64; 6]; 6], lag: &mut [[u64; 6]; 6], m: usize, p: Places)
    requires { (m ≤ size_limit) × ((s : ℕ → Bool) × (n : ℕ) × PlacesOf s n p) }
    ensures { (s : ℕ → Bool) (n : ℕ) → PlacesOf s n p →
        PickedTables s n m order.old order.new lag.old lag.new }
{
    if p.spares == 0 {
        return;
    }
    *lag = picked_columns(lag, m, p);
    let rows = picked_rows(order, p);
    *order = picked_columns(&rows, p.count, p);
}

// A set of the triggers in use, counted among themselves, with each trigger at its own bit.
pub fn laid_set(set: u8, p: Places) -> u8
    requires { (s : ℕ → Bool) × (n : ℕ) × PlacesOf s n p }
    ensures { (s : ℕ → Bool) (n : ℕ) → PlacesOf s n p → result ≡ byte_of n (filled s (λ j. false) (bit set)) }
{
    let mut byte: u8 = 0;
    let mut k: usize = 0;
    for j in 0..p.triggers {
        if has(p.used, j) {
            if has(set, k) {
                byte += 1 << j;
            }
            k += 1;
        }
    }
    byte
}
