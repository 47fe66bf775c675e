// The walk's case table. Standard input holds cases, each `label|sheet;`; standard output gets the label and a line for the state before the
// first step and for each that a step hands back: the selection, step 6's w, how many panels are fixed and the fixings so far. Once the end
// is come to, one more step is taken.
#![tactic(auto)]

ghost use Rattle.std.specs.Prelude.{◌<◌, ◌≤◌, IfOk};
ghost use Rattle.walk.specs.Trace.{Masks};
ghost use Rattle.walk.specs.Steps.{StepReady};
ghost use Rattle.cue.specs.Sizes.{size_limit};

use candidates::Marks;
use preparing::{Tables, prepare};
use reading::read_sheet;
use refusals::Refusal;
use walk::{Levels, Outcome, Walk};

// One word of w: the number, or a minus where it is absent.
fn put_word(word: u64) {
    if !words::present(word) {
        io::write_all(1, b"-");
        return;
    }
    let below = words::below(word);
    if 0 < below {
        io::write_all(1, b"-");
        io::print_decimal(1, below);
        return;
    }
    io::print_decimal(1, words::above(word));
}

// The first `count` words of w, trigger 1 first.
fn put_words(at: [u64; 6], count: usize) {
    for (j, word) in at.iter().take(count).enumerate() {
        if 0 < j {
            io::write_all(1, b",");
        }
        put_word(*word);
    }
}

// The triggers that the fixed panels chose, the first panel's first. The picks have three bits for each, the deepest panel's lowest.
fn put_choices(picks: u64, depth: usize)
    requires { depth ≤ size_limit }
{
    for below in (0..depth).rev() {
        if below + 1 < depth {
            io::write_all(1, b",");
        }
        io::print_decimal(1, (picks >> (3 * below)) % 8 + 1);
    }
}

// The rest of a state's line: its w, the panels fixed in it and the fixings so far.
fn put_state(w: Walk) {
    io::write_all(1, b" w=");
    put_words(w.bounds.at, w.bounds.count);
    io::write_all(1, b" fixed=");
    io::print_decimal(1, w.place.depth as u64);
    io::write_all(1, b" fixings=");
    io::print_decimal(1, u64::from(w.place.fixings));
    io::write_all(1, b"\n");
}

// The end, and what a step gives after it: the end again, unchanged.
fn put_end(w: Walk, levels: &Levels)
    requires { StepReady levels.now.kept.now levels.now.gains.now levels.now.count w.place }
{
    io::write_all(1, b"end");
    put_state(w);
    let s = w.step(levels);
    match s.outcome {
        Outcome::End => {
            io::write_all(1, b"again");
        }
        Outcome::Selection => {
            io::write_all(1, b"not the end");
        }
    }
    put_state(s.next);
}

// Every state of a walk.
fn put_walk(levels: &Levels, triggers: usize)
    requires { (0 < levels.now.count) × (levels.now.count ≤ size_limit) × Masks levels.now.kept.now }
{
    let mut w = Walk::start(levels.kept, triggers);
    io::write_all(1, b"start");
    put_state(w);
    loop {
        let s = w.step(levels);
        w = s.next;
        match s.outcome {
            Outcome::End => {
                put_end(w, levels);
                return;
            }
            Outcome::Selection => {
                let place = w.place;
                io::write_all(1, b"selection=");
                put_choices(place.picks, place.depth);
                put_state(w);
            }
        }
    }
}

// What a sheet's walk is made from, in lent tables; or its refusal.
fn prepared(bytes: &[u8], tables: &mut Tables) -> Result<Marks, Refusal>
    ensures { IfOk result (λ M. (0 < M.levels) × (M.levels ≤ size_limit) × Masks M.kept) }
{
    let prepared = prepare(read_sheet(bytes), tables)?;
    Ok(prepared.marked.marks)
}

// The walk of a sheet, or its refusal.
fn put_sheet(bytes: &[u8]) {
    let mut tables = Tables::blank();
    match prepared(bytes, &mut tables) {
        Ok(marks) => {
            let levels = Levels {
                count: marks.levels,
                kept: &marks.kept,
                gains: &tables.gains,
                needs: &tables.needs,
            };
            put_walk(&levels, marks.triggers);
        }
        Err(refusal) => {
            io::write_all(1, b"refused=");
            io::print_decimal(1, u64::from(refusal.number()));
            io::write_all(1, b"\n");
        }
    }
}

// One case: its label, and the walk of its sheet.
fn one(s: &[u8]) {
    for (i, b) in s.iter().enumerate() {
        if *b == b'|' {
            io::write_all(1, &s[..i]);
            io::write_all(1, b"\n");
            put_sheet(&s[i + 1..]);
        }
    }
}

// What stands behind the last semicolon is no case.
fn cases(s: &[u8]) {
    for case in s.split_inclusive(|b| *b == b';') {
        if let Some(case) = case.strip_suffix(b";") {
            one(case);
        }
    }
}

fn main() {
    let mut buf = io::large_buffer();
    let n = io::read_full(0, &mut buf);
    cases(&buf[..n]);
}
