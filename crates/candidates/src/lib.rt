// What lines are drawn from, how a ray is drawn to one, and the order of lines.
#![tactic(auto)]

pub mod drawing;
pub mod order;

// What a sheet's lines are drawn from, besides its tables. By trigger: pulls, the marks r(j) with the sign turned, and due. By panel: asks,
// p(i) − Δ, absent without a floor. By level, that is by panel with a floor: kept, the bits of the kept triggers.
#[derive(Clone, Copy)]
pub struct Marks {
    pub triggers: usize,
    pub panels: usize,
    pub levels: usize,
    pub pulls: [u64; 6],
    pub due: [u64; 6],
    pub asks: [u64; 6],
    pub kept: [u8; 6],
}

// What the lines of a sheet are drawn from: its marks, M*, the table of lags, and by level what is asked of each trigger.
#[derive(Clone, Copy)]
pub struct Sources<'a> {
    pub marks: &'a Marks,
    pub star: &'a [[u64; 6]; 6],
    pub lag: &'a [[u64; 6]; 6],
    pub needs: &'a [[u64; 6]; 6],
}
