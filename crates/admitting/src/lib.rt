// What testing a timing refuses, with which every operation on a sheet and a timing begins; and then all that it is made from.
#![tactic(auto)]

ghost use Rattle.std.specs.Prelude.{Bool, ℕ, ℤ};
ghost use Rattle.maxplus.specs.Packing.{rank, place};
ghost use Rattle.sheet.specs.Admitted.{admitted};
ghost use Rattle.timing.specs.Times.{component, TimingWords};
ghost use Rattle.spares.specs.Using.{PlacesOf};
ghost use Rattle.preparing.specs.Prepared.{PreparedAs};

use preparing::{Prepared, Tables, prepare_sheet};
use reading::read_sheet;
use refusals::Refusal;
use spares::{Places, picked};
use timing::Timing;
use timing::limit::beyond;
use words::LineWords;

// "Reading's, then 10: not n components; 11: one beyond ±1,000,000,000; then 8." Otherwise the lent tables are those that `prepare_sheet` makes.
pub fn admit(bytes: &[u8], timing: Timing, tables: &mut Tables) -> Result<Prepared, Refusal>
    ensures { PreparedAs (admitted bytes.now timing.count (component timing.at)) tables.new result }
{
    let sheet = read_sheet(bytes)?;
    let n = sheet.triggers;
    if timing.count != n {
        return Err(Refusal::WrongCount);
    }
    if beyond(timing, n) {
        return Err(Refusal::TimeTooFar);
    }
    prepare_sheet(&sheet, tables)
}

// The words of a timing's components at the triggers in use: "A tested timing may hold any permitted number" at the others.
pub fn times_in_use(x: LineWords, p: Places) -> LineWords
    requires { (s : ℕ → Bool) × (n : ℕ) × PlacesOf s n p }
    ensures { (s : ℕ → Bool) (n : ℕ) (X : ℕ → ℤ) → PlacesOf s n p → TimingWords n X x →
        TimingWords (rank s n) (λ k. X (place s n k)) result }
{
    let times = picked(x.at, p);
    LineWords {
        count: p.count,
        at: times,
    }
}
