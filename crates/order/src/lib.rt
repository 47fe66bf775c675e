// Step 1: whether timings that keep the order exist, and the star of the order table.
#![tactic(auto)]

ghost use Rattle.std.specs.Prelude.{◌≤◌, ◌<◌};
ghost use Rattle.words.specs.Words.{far};
ghost use Rattle.tables.specs.Held.{meant, Square, Closely};
ghost use Rattle.order.specs.Closed.{Closed, Passed};
ghost use Rattle.sheet.specs.Sizes.{order_limit};
ghost use Rattle.cue.specs.Sizes.{size_limit};

use tables::{identity, joined, raise};

// "Timings that keep the order exist exactly when no diagonal entry of powers 1 to n is above 0." Then the lent table is M*, "the sum of the
// powers 0 to n − 1 of the after table", since document 02 of the order table. It is made from power 0 and the table itself by ways through ever
// more triggers, which takes one product's work and not n; a way round that gains is met before a trigger is passed through.
pub fn closed(order: &[[u64; 6]; 6], star: &mut [[u64; 6]; 6], n: usize) -> bool
    requires { (n ≤ size_limit) × Closely n n order_limit order.now }
    ensures { Closed n (meant order.now) star.new result }
{
    let unit = identity();
    *star = joined(&unit, order, n);
    let zero = words::positive(0);
    for k in 0..n {
        let around = star[k][k];
        if zero < around {
            return false;
        }
        pass(star, k, n);
    }
    true
}

// The ways through trigger k too: each row raised to row k, shifted by the entry at k.
fn pass(star: &mut [[u64; 6]; 6], k: usize, n: usize)
    requires { (n ≤ size_limit) × (k < n) × Square star.old × Closely n n far star.old }
    ensures { Passed n k star.old star.new }
{
    let through = star[k];
    for i in 0..n {
        let shift = star[i][k];
        raise(&mut star[i], shift, through, n);
    }
}
