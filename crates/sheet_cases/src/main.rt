// Reading's case table. Standard input holds cases, each `label|sheet;`; standard output gets a line for each: the refusal, or the sheet read.
#![tactic(auto)]

use reading::{Measure, SheetWords};

// One word of a table: a blank, and the number or a minus.
fn put_word(word: u64) {
    io::write_all(1, b" ");
    if !words::present(word) {
        io::write_all(1, b"-");
        return;
    }
    let below = words::below(word);
    if 0 < below {
        io::write_all(1, b"-");
        io::print_decimal(1, below);
        return;
    }
    io::print_decimal(1, words::above(word));
}

fn put_row(row: &[u64; 6], count: usize) {
    for word in row.iter().take(count) {
        put_word(*word);
    }
}

fn put_rows(key: &[u8], rows: &[[u64; 6]; 6], lines: usize, count: usize) {
    for row in rows.iter().take(lines) {
        io::write_all(1, key);
        put_row(row, count);
    }
}

fn put_marks(floor: &[u64; 6], due: &[u64; 6], panels: usize, triggers: usize) {
    io::write_all(1, b" floor");
    put_row(floor, panels);
    io::write_all(1, b" due");
    put_row(due, triggers);
}

fn put_sheet(t: &SheetWords) {
    if let Measure::Spread = t.measure {
        io::write_all(1, b" rule 2");
    }
    put_rows(b" lag", &t.lag, t.panels, t.triggers);
    if let Measure::Marks { floor, due } = t.measure {
        put_marks(&floor, &due, t.panels, t.triggers);
    }
    put_rows(b" after", &t.after, t.triggers, t.triggers);
    if let Some(land) = t.land {
        put_rows(b" land", &land, t.triggers, t.panels);
    }
    if let Some(last) = t.last {
        io::write_all(1, b" last");
        put_row(&last, t.panels);
    }
}

fn put_reading(s: &[u8]) {
    match reading::read_sheet(s) {
        Ok(t) => put_sheet(&t),
        Err(refusal) => {
            io::write_all(1, b" refused=");
            io::print_decimal(1, u64::from(refusal.number()));
        }
    }
}

// One case: its label, and what its sheet gives.
fn one(s: &[u8]) {
    for (i, b) in s.iter().enumerate() {
        if *b == b'|' {
            io::write_all(1, &s[..i]);
            io::write_all(1, b":");
            put_reading(&s[i + 1..]);
        }
    }
}

// What stands behind the last semicolon is no case.
fn cases(s: &[u8]) {
    for case in s.split_inclusive(|b| *b == b';') {
        if let Some(case) = case.strip_suffix(b";") {
            one(case);
        }
    }
    io::write_all(1, b"\n");
}

fn main() {
    let mut buf = io::large_buffer();
    let n = io::read_full(0, &mut buf);
    cases(&buf[..n]);
}
