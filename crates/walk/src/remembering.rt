// Step 6's w as the walk goes down and up: a panel asks more of one trigger, and what that trigger had before is put back.
// An array is never indexed by a number that only a run knows: it would have to stand in memory, and each step would copy it and wait.
ghost use Rattle.std.specs.Prelude.{◌≡◌, ◌<◌, get_or, set};
ghost use Rattle.walk.specs.Inner.{Asked, pushed, popped};

use words::larger;

// The word at place j.
fn word_at(at: [u64; 6], j: usize) -> u64
    requires { j < 6 }
    ensures { result ≡ get_or at j 0 }
{
    let mut r: u64 = 0;
    for k in 0..6 {
        if k == j {
            r = at[k];
        }
    }
    r
}

// The same words, but for x at place j.
fn with_word(at: [u64; 6], j: usize, x: u64) -> [u64; 6]
    requires { j < 6 }
    ensures { result ≡ set at j x }
{
    let mut r = at;
    for k in 0..6 {
        if k == j {
            r[k] = x;
        }
    }
    r
}

// x comes first, and the last word goes.
fn with_first(x: u64, r: [u64; 6]) -> [u64; 6]
    ensures { result ≡ pushed x r }
{
    [x, r[0], r[1], r[2], r[3], r[4]]
}

// The first word goes, and absent comes last.
fn without_first(r: [u64; 6]) -> [u64; 6]
    ensures { result ≡ popped r }
{
    [r[1], r[2], r[3], r[4], r[5], 0]
}

// A panel asks more of trigger j; the word that it had comes first among those replaced.
pub fn ask_of(bounds: &mut [u64; 6], replaced: &mut [u64; 6], j: usize, ask: u64)
    requires { j < 6 }
    ensures asked { Asked bounds.old j ask bounds.new }
    ensures pushed { replaced.new ≡ pushed (get_or bounds.old j 0) replaced.old }
{
    let before = *bounds;
    let had = word_at(before, j);
    *bounds = with_word(before, j, larger(ask, had));
    let saved = *replaced;
    *replaced = with_first(had, saved);
}

// The first word among those replaced is put back at trigger j.
pub fn put_back(bounds: &mut [u64; 6], replaced: &mut [u64; 6], j: usize)
    requires { j < 6 }
    ensures back { bounds.new ≡ set bounds.old j (get_or replaced.old 0 0) }
    ensures popped { replaced.new ≡ popped replaced.old }
{
    let before = *bounds;
    let saved = *replaced;
    *bounds = with_word(before, j, saved[0]);
    *replaced = without_first(saved);
}
