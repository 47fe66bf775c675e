// Tables of six by six words: the unit table, the larger of two, the product, a column.
#![tactic(auto)]

ghost use Rattle.std.specs.Prelude.{◌≡◌, ℕ, ◌≤◌, ◌<◌, length, get_or};
ghost use Rattle.maxplus.specs.Entry.{◌⊗◌, ◌⊕◌};
ghost use Rattle.maxplus.specs.Tables.{sup, mm, idm};
ghost use Rattle.words.specs.Words.{entry, far, Near};
ghost use Rattle.tables.specs.Held.{Square, cell, meant, meant_v, Holds, HoldsV, Closely, CloselyV, Raised};
ghost use Rattle.cue.specs.Sizes.{size_limit};

pub mod differences;
pub mod largest;

// "power 0 has 0 on the diagonal and absent elsewhere"
pub fn identity() -> [[u64; 6]; 6]
    ensures { Holds 6 6 idm result }
{
    let mut r = [[0u64; 6]; 6];
    for i in 0..6 {
        for j in 0..6 {
            r[i][j] = unit_at(i, j);
        }
    }
    r
}

fn unit_at(i: usize, j: usize) -> u64
    ensures { entry result ≡ idm i j }
{
    if i == j { words::positive(0) } else { 0 }
}

// The larger of two tables, entry by entry.
pub fn joined(a: &[[u64; 6]; 6], b: &[[u64; 6]; 6], n: usize) -> [[u64; 6]; 6]
    requires { n ≤ size_limit }
    ensures { Square result × Holds n n (λ i j. meant a.now i j ⊕ meant b.now i j) result }
{
    let mut r = [[0u64; 6]; 6];
    for i in 0..n {
        for j in 0..n {
            r[i][j] = words::larger(a[i][j], b[i][j]);
        }
    }
    r
}

// The first m rows and n columns of the product, over k places between.
pub fn product(a: &[[u64; 6]; 6], b: &[[u64; 6]; 6], m: usize, k: usize, n: usize) -> [[u64; 6]; 6]
    requires { (m ≤ size_limit) × (k ≤ size_limit) × (n ≤ size_limit) × Closely m k far a.now × Closely k n far b.now }
    ensures { Holds m n (mm k (meant a.now) (meant b.now)) result }
{
    let mut r = [[0u64; 6]; 6];
    for i in 0..m {
        r[i] = row_product(a[i], b, k, n);
    }
    r
}

// One row of the product: the largest, over the way between, of the rows of b, each shifted.
fn row_product(row: [u64; 6], b: &[[u64; 6]; 6], k: usize, n: usize) -> [u64; 6]
    requires { (k ≤ size_limit) × (n ≤ size_limit) × CloselyV k far row × Closely k n far b.now }
    ensures { HoldsV n (λ j. sup k (λ l. meant_v row l ⊗ meant b.now l j)) result }
{
    let mut r = [0u64; 6];
    for l in 0..k {
        raise(&mut r, row[l], b[l], n);
    }
    r
}

// Raises each place of r to y shifted. Most entries of an order table are absent, and shifting by them adds nothing.
pub fn raise(r: &mut [u64; 6], shift: u64, y: [u64; 6], n: usize)
    requires { (n ≤ size_limit) × Near shift × CloselyV n far y × (length r.old ≡ 6) }
    ensures { Raised n (entry shift) (meant_v y) r.old r.new }
{
    if !words::present(shift) {
        return;
    }
    for j in 0..n {
        let sum = words::plus(shift, y[j]);
        r[j] = words::larger(sum, r[j]);
    }
}

// Column j.
pub fn column(table: &[[u64; 6]; 6], j: usize) -> [u64; 6]
    requires { j < 6 }
    ensures { (i : ℕ) → i < 6 → get_or result i 0 ≡ cell table.now i j }
{
    let mut r = [0u64; 6];
    for i in 0..6 {
        r[i] = table[i][j];
    }
    r
}
