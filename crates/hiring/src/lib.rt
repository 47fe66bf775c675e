// A load that the hire shop can repeat: one sheet from its sizes and a state, and the next state.
#![tactic(auto)]

ghost use Rattle.std.specs.Prelude.{◌≡◌, ◌+◌, ◌*◌, ◌≤◌, ◌++◌, length};
ghost use Rattle.maxplus.specs.Entry.{num};
ghost use Rattle.cue.specs.Sizes.{size_limit};
ghost use Rattle.words.specs.Words.{word};
ghost use Rattle.sheet.specs.Text.{bytes};
ghost use Rattle.writing.specs.Numerals.{natural};
ghost use Rattle.writing.specs.Texts.{field};
ghost use Rattle.writing.specs.Writing.{Put};
ghost use Rattle.sheet_text.specs.SheetText.{rows_text, sheet_text};
ghost use Rattle.hiring.specs.Hiring.{next, drawn, drawn_item, absence, drawn_items, by_sevens, first_there, all_there, sheet_from};
ghost use Rattle.hiring.specs.Hiring.{drawn_number, size?};
ghost use Rattle.hiring.specs.Hiring.{draws, hiring, bytes_after, hire_answer};
ghost use Rattle.hiring.specs.Inner.{kind_of, RowDrawn, RowsDrawn};

use refusals::Refusal;
use table_text::put_rows;
use writing::{Writer, put_bytes};

pub mod chain;

// What a draw adds to the state.
pub const STRIDE: u32 = 2_654_435_769;

// The most panels and the most triggers.
pub const MOST: usize = 6;

// No sheet of a load has more bytes.
const LONGEST: usize = 1024;

// How many bytes were written, and the next state.
#[derive(Clone, Copy, PartialEq, Eq, Debug)]
pub struct Hired {
    pub length: usize,
    pub state: u32,
}

// Which items of a kind of line are never or always absent: the first of each line is there, in lag lines and the floor line; all are, in the
// due line; none on or above the diagonal, in after lines.
#[derive(Clone, Copy)]
enum Lines {
    FirstThere,
    AllThere,
    BelowDiagonal,
}

// A row of drawn entries, and the state behind it.
#[derive(Clone, Copy)]
struct DrawnRow {
    state: u32,
    at: [u64; 6],
}

// Writes one sheet at the front of the lent bytes; or 12 or 13. It is made apart first, since whether it fits is known at its end alone.
pub fn hire(panels: usize, triggers: usize, state: u32, out: &mut [u8]) -> Result<Hired, Refusal>
    ensures returned { result ≡ hire_answer (hiring panels triggers state (length out.old)) }
    ensures written { out.new ≡ bytes_after (hiring panels triggers state (length out.old)) out.old }
{
    if !is_size(panels) || !is_size(triggers) {
        return Err(Refusal::NoLoadSize);
    }
    let mut text = [0u8; LONGEST];
    let mut sheet = Writer::new(&mut text);
    let next = put_sheet(&mut sheet, panels, triggers, state);
    let length = sheet.at;
    if out.len() < length {
        return Err(Refusal::SpaceTooShort);
    }
    put_bytes(out, 0, &text[..length]);
    Ok(Hired {
        length,
        state: next,
    })
}

fn is_size(k: usize) -> bool
    ensures { result ≡ size? k }
{
    1 <= k && k <= MOST
}

// The lines of the sizes.
fn put_sizes(w: &mut Writer<'_>, panels: usize, triggers: usize)
    requires { w.old.at + 100 ≤ length w.old.out.now }
    ensures puts { Put w.old w.new (field (bytes "panels=") (natural panels) ++ field (bytes "triggers=") (natural triggers)) }
    ensures short { w.new.at ≤ w.old.at + 58 }
{
    w.put_field(b"panels=", panels as u64);
    w.put_field(b"triggers=", triggers as u64);
}

// The sheet, kind of line by kind of line: the sizes take at most 58 bytes, each other line at most 60. The state behind it.
fn put_sheet(w: &mut Writer<'_>, panels: usize, triggers: usize, state: u32) -> u32
    requires { (w.old.at + 1024 ≤ length w.old.out.now) × (panels ≤ size_limit) × (triggers ≤ size_limit) }
    ensures text { Put w.old w.new (sheet_text (sheet_from panels triggers state)) }
    ensures state { result ≡ drawn state (draws panels triggers) }
{
    put_sizes(w, panels, triggers);
    let past_lag = put_lines(w, b"lag=", Lines::FirstThere, panels, triggers, state);
    let past_marks = put_marks(w, panels, triggers, past_lag);
    put_lines(
        w,
        b"after=",
        Lines::BelowDiagonal,
        triggers,
        triggers,
        past_marks,
    )
}

// The floor line and the due line; the state behind them.
fn put_marks(w: &mut Writer<'_>, panels: usize, triggers: usize, state: u32) -> u32
    requires { (w.old.at + 160 ≤ length w.old.out.now) × (panels ≤ size_limit) × (triggers ≤ size_limit) }
    ensures text { Put w.old w.new
        (rows_text (bytes "floor=") 1 panels (drawn_items first_there panels state) ++
        rows_text (bytes "due=") 1 triggers (drawn_items all_there triggers (drawn state (1 * panels)))) }
    ensures short { w.new.at ≤ w.old.at + 120 }
    ensures state { result ≡ drawn (drawn state (1 * panels)) (1 * triggers) }
{
    let past_floor = put_lines(w, b"floor=", Lines::FirstThere, 1, panels, state);
    put_lines(w, b"due=", Lines::AllThere, 1, triggers, past_floor)
}

// The lines of one kind: drawn, then put; the state behind them. The lag lines and the floor line share a kind, so key and sizes stand beside it.
fn put_lines(
    w: &mut Writer<'_>,
    key: &[u8],
    kind: Lines,
    lines: usize,
    count: usize,
    state: u32,
) -> u32
    requires { (w.old.at + 60 * lines + 40 ≤ length w.old.out.now) × (length key.now ≤ 11) × (lines ≤ size_limit) × (count ≤ size_limit) }
    ensures text { Put w.old w.new (rows_text key.now lines count (drawn_items (kind_of kind) count state)) }
    ensures short { w.new.at ≤ w.old.at + 60 * lines }
    ensures state { result ≡ drawn state (lines * count) }
{
    let mut rows = [[0u64; 6]; 6];
    let next = draw_rows(kind, lines, count, state, &mut rows);
    put_rows(w, key, &rows, lines, count);
    next
}

// Draws the items of the lines of one kind; the state behind them.
fn draw_rows(kind: Lines, lines: usize, count: usize, state: u32, rows: &mut [[u64; 6]; 6]) -> u32
    requires { (lines ≤ size_limit) × (count ≤ size_limit) × (length rows.old ≡ size_limit) }
    ensures { RowsDrawn (kind_of kind) count state rows.new result lines }
{
    let mut now = state;
    for i in 0..lines {
        let drawn = draw_row(kind, i, count, now);
        let row = drawn.at;
        rows[i] = row;
        now = drawn.state;
    }
    now
}

// Draws the items of the i-th line.
fn draw_row(kind: Lines, i: usize, count: usize, state: u32) -> DrawnRow
    requires { count ≤ size_limit }
    ensures { RowDrawn (kind_of kind) i state result.at result.state count }
{
    let mut at = [0u64; 6];
    let mut now = state;
    for j in 0..count {
        now = draw(now);
        at[j] = item(kind, i, j, now >> 16);
    }
    DrawnRow { state: now, at }
}

// One draw.
fn draw(state: u32) -> u32
    ensures { result ≡ next state }
{
    state.wrapping_add(STRIDE)
}

// The j-th item of the i-th line, made of a draw.
fn item(kind: Lines, i: usize, j: usize, u: u32) -> u64
    ensures { result ≡ word (drawn_item (absence (kind_of kind) i j) u) }
{
    match kind {
        Lines::FirstThere => if j == 0 { number(u) } else { by_sevens(u) },
        Lines::AllThere => number(u),
        Lines::BelowDiagonal => if j < i { by_sevens(u) } else { 0 },
    }
}

// An item that may be absent.
fn by_sevens(u: u32) -> u64
    ensures { result ≡ word (drawn_item by_sevens u) }
{
    if u % 7 == 0 { 0 } else { number(u) }
}

// The number of a draw.
fn number(u: u32) -> u64
    ensures { result ≡ word (num (drawn_number u)) }
{
    words::of_number(i64::from(u % 2001) - 1000)
}
