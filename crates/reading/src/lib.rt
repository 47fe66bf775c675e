// Reading a sheet: from any bytes to the sheet's tables, or to the refusal of the first fault met.
#![tactic(auto)]

ghost use Rattle.std.specs.Prelude.{◌≡◌, [], ◌≤◌, ◌<◌, length, drop, get_or, option_map};
ghost use Rattle.maxplus.specs.Whole.{up};
ghost use Rattle.maxplus.specs.Entry.{val};
ghost use Rattle.words.specs.Words.{entry};
ghost use Rattle.sheet.specs.Sheet.{read, headed, sized, mark_lines, none_present};
ghost use Rattle.reading.specs.Reading.{answer};
ghost use Rattle.reading.specs.Inner.{RuleIs, FinishedIs, FloorIs, EmptyRow, EmptyWords};
ghost use Rattle.reading.specs.Inner.{meant, measure_from, table_words, lag_missing_at, some_lag_missing_at, unmeasured_at};
ghost use Rattle.cue.specs.Sizes.{size_limit};

use refusals::Refusal;
use rows::Items::{Entry, Mark};
use rows::{Items, literal_at, read_optional, read_rows};

// The most bytes that a sheet may have.
const LONGEST: usize = 2048;

// How many bytes the line of rule 2 has.
const RULE_LINE: usize = 7;

// What a sheet measures a cue by: its floors and due marks, or, under rule 2, the spread of landings.
#[derive(Clone, Copy)]
pub enum Measure {
    Marks { floor: [u64; 6], due: [u64; 6] },
    Spread,
}

// A good sheet, its entries as words, absent past the sizes: with land lines and a last line where it has them.
#[derive(Clone, Copy)]
pub struct SheetWords {
    pub panels: usize,
    pub triggers: usize,
    pub lag: [[u64; 6]; 6],
    pub measure: Measure,
    pub after: [[u64; 6]; 6],
    pub land: Option<[[u64; 6]; 6]>,
    pub last: Option<[u64; 6]>,
}

// Reads a sheet: any bytes have one answer.
pub fn read_sheet(s: &[u8]) -> Result<SheetWords, Refusal>
    ensures { result ≡ answer (read s.now) }
{
    if LONGEST < s.len() {
        return Err(Refusal::SheetTooLong);
    }
    let (ruled, at) = read_rule(s)?;
    read_headed(s, at, ruled)
}

// Whether the sheet begins with the line of rule 2, and the place behind it.
fn read_rule(s: &[u8]) -> Result<(bool, usize), Refusal>
    ensures { RuleIs s.now result }
{
    if !literal_at(s, 0, b"rule=") {
        return Ok((false, 0));
    }
    if literal_at(s, 0, b"rule=2\n") {
        return Ok((true, RULE_LINE));
    }
    Err(Refusal::WrongForm)
}

// Reads the lines behind that of a rule: first those that give the sizes.
fn read_headed(s: &[u8], from: usize, ruled: bool) -> Result<SheetWords, Refusal>
    requires { from ≤ length s.now }
    ensures { result ≡ answer (headed ruled (drop from s.now)) }
{
    let mut line = [[0u64; 6]; 6];
    let at = read_rows(s, from, b"panels=", Items::Size, 1, 1, &mut line)?;
    let panels = size(&line);
    let at = read_rows(s, at, b"triggers=", Items::Size, 1, 1, &mut line)?;
    let triggers = size(&line);
    read_sized(s, at, ruled, panels, triggers)
}

// The number of a size line.
fn size(line: &[[u64; 6]; 6]) -> usize
    ensures { result ≡ up (val (entry (get_or (get_or line.now 0 []) 0 0))) }
{
    words::above(line[0][0]) as usize
}

// Reads the lines of the tables, each kind with its key, what its items may be, how many lines it has and how many items in each; then those
// that a sheet may have behind them; and answers.
fn read_sized(
    s: &[u8],
    from: usize,
    ruled: bool,
    panels: usize,
    triggers: usize,
) -> Result<SheetWords, Refusal>
    requires { (from ≤ length s.now) × (panels ≤ size_limit) × (triggers ≤ size_limit) }
    ensures { result ≡ answer (sized ruled panels triggers (drop from s.now)) }
{
    let marks = mark_lines(ruled);
    let mut lag = [[0u64; 6]; 6];
    let mut floor = [[0u64; 6]; 6];
    let mut due = [[0u64; 6]; 6];
    let mut after = [[0u64; 6]; 6];
    let at = read_rows(s, from, b"lag=", Entry, panels, triggers, &mut lag)?;
    let at = read_rows(s, at, b"floor=", Entry, marks, panels, &mut floor)?;
    let at = read_rows(s, at, b"due=", Mark, marks, triggers, &mut due)?;
    let at = read_rows(s, at, b"after=", Entry, triggers, triggers, &mut after)?;
    let (land, at) = read_optional(s, at, b"land=", Entry, triggers, panels)?;
    let (last, at) = read_optional(s, at, b"last=", Mark, 1, panels)?;
    let sheet = SheetWords {
        panels,
        triggers,
        lag,
        measure: measure_of(ruled, floor[0], due[0]),
        after,
        land,
        last: first_row(last),
    };
    check(&sheet, s.len() - at)?;
    Ok(sheet)
}

// How many floor lines a sheet has, and how many due lines.
fn mark_lines(ruled: bool) -> usize
    ensures { result ≡ mark_lines ruled }
{
    if ruled { 0 } else { 1 }
}

// The row of a line that may be missing.
fn first_row(rows: Option<[[u64; 6]; 6]>) -> Option<[u64; 6]>
    ensures { result ≡ option_map (λ ws. get_or ws 0 []) rows }
{
    match rows {
        Some(rows) => Some(rows[0]),
        None => None,
    }
}

// What is measured, from the rows of the marks.
fn measure_of(ruled: bool, floor: [u64; 6], due: [u64; 6]) -> Measure
    ensures { result ≡ measure_from ruled floor due }
{
    if ruled {
        Measure::Spread
    } else {
        Measure::Marks { floor, due }
    }
}

// What a sheet that was read may still be refused for, with `left` bytes behind its lines.
fn check(sheet: &SheetWords, left: usize) -> Result<(), Refusal>
    requires { (sheet.now.panels ≤ size_limit) × (sheet.now.triggers ≤ size_limit) }
    ensures { FinishedIs sheet.now left result }
{
    let no_lag = empty_row(&sheet.lag, sheet.panels);
    let no_floor = without_floor(sheet.measure);
    let no_mark = unmeasured(sheet);
    if left != 0 {
        return Err(Refusal::WrongForm);
    }
    if no_lag {
        return Err(Refusal::PanelWithoutLag);
    }
    if no_floor {
        return Err(Refusal::NoFloor);
    }
    if no_mark {
        return Err(Refusal::TriggerWithoutLag);
    }
    Ok(())
}

// No panel has a floor: under rule 2 none is asked for.
fn without_floor(measure: Measure) -> bool
    ensures { FloorIs measure result }
{
    match measure {
        Measure::Marks { floor, .. } => empty(&floor),
        Measure::Spread => false,
    }
}

// Under rule 2 a trigger that is not spare has no lag.
fn unmeasured(sheet: &SheetWords) -> bool
    requires { (sheet.now.panels ≤ size_limit) × (sheet.now.triggers ≤ size_limit) }
    ensures { result ≡ unmeasured_at sheet.now }
{
    match sheet.measure {
        Measure::Marks { .. } => false,
        Measure::Spread => some_lag_missing(sheet),
    }
}

// Some trigger is not spare and has no lag.
fn some_lag_missing(sheet: &SheetWords) -> bool
    requires { (sheet.now.panels ≤ size_limit) × (sheet.now.triggers ≤ size_limit) }
    ensures { result ≡ some_lag_missing_at sheet.now }
{
    for j in 0..sheet.triggers {
        if lag_missing(sheet, j) {
            return true;
        }
    }
    false
}

// Trigger `j` is not spare and has no lag: an after entry in its row or column, or a land entry in its row, makes it wait or be waited for.
fn lag_missing(sheet: &SheetWords, j: usize) -> bool
    requires { (sheet.now.panels ≤ size_limit) × (sheet.now.triggers ≤ size_limit) × (j < size_limit) }
    ensures { result ≡ lag_missing_at sheet.now j }
{
    if !empty_column(&sheet.lag, sheet.panels, j) {
        return false;
    }
    if !empty(&sheet.after[j]) {
        return true;
    }
    if !empty_column(&sheet.after, sheet.triggers, j) {
        return true;
    }
    !lands_empty(sheet.land, j)
}

// The land row of trigger `j` has no entry, or there is none.
fn lands_empty(land: Option<[[u64; 6]; 6]>, j: usize) -> bool
    requires { j < size_limit }
    ensures { EmptyWords (get_or (table_words land) j []) result }
{
    match land {
        Some(rows) => empty(&rows[j]),
        None => true,
    }
}

// None of the first `lines` rows has an entry at `j`.
fn empty_column(rows: &[[u64; 6]; 6], lines: usize, j: usize) -> bool
    requires { (lines ≤ size_limit) × (j < size_limit) }
    ensures { result ≡ none_present lines (λ i. meant rows.now i j) }
{
    for row in &rows[..lines] {
        if words::present(row[j]) {
            return false;
        }
    }
    true
}

// One of the first `lines` rows has no entry.
fn empty_row(rows: &[[u64; 6]; 6], lines: usize) -> bool
    requires { lines ≤ size_limit }
    ensures { EmptyRow rows.now lines result }
{
    for row in &rows[..lines] {
        if empty(row) {
            return true;
        }
    }
    false
}

// No word of the six is an entry.
fn empty(row: &[u64; 6]) -> bool
    ensures { EmptyWords row.now result }
{
    for word in row {
        if words::present(*word) {
            return false;
        }
    }
    true
}
