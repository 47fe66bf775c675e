// Sets of triggers as six bits in a byte, bit 0 for trigger 1: which sums of a table's row i and a line have a word. No sum is stored.
ghost use Rattle.std.specs.Prelude.{◌≡◌, ◌+◌, ◌≤◌, ◌<◌};
ghost use Rattle.maxplus.specs.Entry.{◌⊗◌};
ghost use Rattle.words.specs.Words.{entry, far};
ghost use Rattle.tables.specs.Held.{meant, meant_v, Closely, CloselyV};
ghost use Rattle.trigger_sets.specs.Sets.{SetOf};
ghost use Rattle.candidates.specs.Rays.{ReachesTop};
ghost use Rattle.cue.specs.Sizes.{size_limit};

use words::LineWords;

// The places where the sum has the word.
pub fn places(table: &[[u64; 6]; 6], i: usize, line: LineWords, word: u64) -> u8
    requires { (line.count ≤ size_limit) × (i < 6) × Closely (i + 1) line.count far table.now × CloselyV line.count far line.at }
    ensures { SetOf (λ j. (j < line.count) × (meant table.now i j ⊗ meant_v line.at j ≡ entry word)) result }
{
    let n = line.count;
    let mut set: u8 = 0;
    for j in 0..n {
        if words::plus(table[i][j], line.at[j]) == word {
            set |= 1 << j;
        }
    }
    set
}

// The same, but none where some sum is beyond the word: the first such sum ends the search.
pub fn reached(table: &[[u64; 6]; 6], i: usize, line: LineWords, word: u64) -> u8
    requires { (line.count ≤ size_limit) × (i < 6) × Closely (i + 1) line.count far table.now × CloselyV line.count far line.at }
    ensures { SetOf (λ j. ReachesTop line.count (λ j. meant table.now i j ⊗ meant_v line.at j) (entry word) j) result }
{
    let n = line.count;
    let mut set: u8 = 0;
    for j in 0..n {
        let sum = words::plus(table[i][j], line.at[j]);
        if word < sum {
            return 0;
        }
        if sum == word {
            set |= 1 << j;
        }
    }
    set
}
