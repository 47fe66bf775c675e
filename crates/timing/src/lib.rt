// A timing: its limit, its components as words, its deviation, and whether it is tightest.
#![tactic(auto)]

mod deviation;
pub mod limit;
mod order;
pub mod test;
pub mod times;

// A timing with its own count of triggers. Components are wider than 32 bits, so that those beyond the limit are values too.
#[derive(Clone, Copy)]
pub struct Timing {
    pub count: usize,
    pub at: [i64; 6],
}
