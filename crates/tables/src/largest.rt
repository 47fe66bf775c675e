// Largest entries: of a vector, of sums with a table's row, and of differences.
ghost use Rattle.std.specs.Prelude.{◌≡◌, ℕ, ◌+◌, ◌≤◌, ◌<◌};
ghost use Rattle.maxplus.specs.Entry.{E};
ghost use Rattle.maxplus.specs.Tables.{sup, mv};
ghost use Rattle.words.specs.Words.{entry, far, third};
ghost use Rattle.cue.specs.Cue.{overdue, shortfall};
ghost use Rattle.tables.specs.Held.{meant, meant_v, Closely, CloselyV};
ghost use Rattle.cue.specs.Sizes.{size_limit};

// The largest of what f gives for the first n places.
fn largest_of<F: Fn(usize) -> u64>(n: usize, f: F) -> u64
    requires { (j : ℕ) → j < n → F.pre f j }
    ensures { (g : ℕ → E) → ((j : ℕ) → j < n → (v : ℕ) → F.post f j v → entry v ≡ g j) → entry result ≡ sup n g }
{
    let mut best: u64 = 0;
    for j in 0..n {
        best = words::larger(f(j), best);
    }
    best
}

// The largest of the first n.
pub fn largest(x: [u64; 6], n: usize) -> u64
    requires { n ≤ size_limit }
    ensures { entry result ≡ sup n (meant_v x) }
{
    largest_of(n, |j| x[j])
}

// The largest sum of row i and x: "Landing y(i) is the largest a(i,j) + x(j)."
pub fn dot(table: &[[u64; 6]; 6], i: usize, x: [u64; 6], n: usize) -> u64
    requires { (n ≤ size_limit) × (i < 6) × Closely (i + 1) n far table.now × CloselyV n far x }
    ensures { entry result ≡ mv n (meant table.now) (meant_v x) i }
{
    largest_of(n, |j| words::plus(table[i][j], x[j]))
}

// "the largest x(j) − q(j)"
pub fn overdue(due: [u64; 6], x: [u64; 6], n: usize) -> u64
    requires { (n ≤ size_limit) × CloselyV n far due × CloselyV n far x }
    ensures { entry result ≡ overdue n (meant_v due) (meant_v x) }
{
    largest_of(n, |j| words::minus(x[j], due[j]))
}

// "the largest p(i) − y(i) over panels with a floor": without one the difference is absent, and adds nothing to a largest.
// A loop of its own: how close a landing is follows from its value, and as a closure's contract it would take more lines than the loop.
pub fn shortfall(table: &[[u64; 6]; 6], floor: [u64; 6], x: [u64; 6], m: usize, n: usize) -> u64
    requires { (m ≤ size_limit) × (n ≤ size_limit) × Closely m n third table.now × CloselyV m third floor × CloselyV n third x }
    ensures { entry result ≡ shortfall m n (meant table.now) (meant_v floor) (meant_v x) }
{
    let mut best: u64 = 0;
    for i in 0..m {
        let lands = dot(table, i, x, n);
        let short = words::minus(floor[i], lands);
        best = words::larger(short, best);
    }
    best
}
