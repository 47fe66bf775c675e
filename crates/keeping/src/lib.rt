// Kept table and walk: the least deviation, each panel's kept triggers, steps and selections.
#![tactic(auto)]

ghost use Rattle.std.specs.Prelude.{◌≡◌, Bool, false, ℕ, get_or};
ghost use Rattle.maxplus.specs.Finite.{byte_of};
ghost use Rattle.maxplus.specs.Packing.{filled};
ghost use Rattle.cue.specs.Sizes.{six};
ghost use Rattle.trigger_sets.specs.Sets.{bit};
ghost use Rattle.spares.specs.Using.{PlacesOf};
ghost use Rattle.keeping.specs.Keeping.{keeping, kept_answer, six_counts};

use preparing::{Tables, prepare};
use reading::read_sheet;
use refusals::Refusal;
use spares::{Places, laid_set};
use walk::Levels;

// Δ, for each panel the byte of its kept triggers and their number (0 and 0 without a floor and past the last panel), the walk's fixings and
// its selections.
#[derive(Clone, Copy, PartialEq, Eq, Debug)]
pub struct KeptTable {
    pub deviation: i64,
    pub panels: usize,
    pub kept: [u8; 6],
    pub counts: [u8; 6],
    pub steps: u32,
    pub selections: u32,
}

// The kept table and the walk's numbers for a sheet; or document 01's refusal, 1 to 8 or 14.
pub fn kept_table(bytes: &[u8]) -> Result<KeptTable, Refusal>
    ensures { result ≡ kept_answer (keeping bytes.now) }
{
    let reading = read_sheet(bytes);
    let mut tables = Tables::blank();
    let prepared = prepare(reading, &mut tables)?;
    let marked = prepared.marked;
    let masks = marked.marks.kept;
    let levels = Levels {
        count: marked.marks.levels,
        kept: &masks,
        gains: &tables.gains,
        needs: &tables.needs,
    };
    let counts = walk::count(&levels, marked.marks.triggers);
    let sets = marked.kept;
    let kept = laid_sets(sets, prepared.cue.places);
    Ok(KeptTable {
        deviation: words::number(marked.least),
        panels: marked.marks.panels,
        kept,
        counts: ones_of(kept),
        steps: counts.steps,
        selections: counts.selections,
    })
}

// The kept triggers of six panels over all triggers of the sheet, each at its own bit.
fn laid_sets(sets: [u8; 6], p: Places) -> [u8; 6]
    requires { (s : ℕ → Bool) × (n : ℕ) × PlacesOf s n p }
    ensures { (s : ℕ → Bool) (n : ℕ) → PlacesOf s n p →
        result ≡ six (λ i. byte_of n (filled s (λ j. false) (bit (get_or sets i 0)))) }
{
    let mut r = [0u8; 6];
    for i in 0..6 {
        r[i] = laid_set(sets[i], p);
    }
    r
}

// "the number of bits set is reported with it"
fn ones_of(kept: [u8; 6]) -> [u8; 6]
    ensures { result ≡ six_counts kept }
{
    let mut r = [0u8; 6];
    for i in 0..6 {
        r[i] = trigger_sets::ones(kept[i]);
    }
    r
}
