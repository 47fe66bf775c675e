// Lines of items: the key, the items split by commas, LF, and what each item may be.
#![tactic(auto)]

ghost use Rattle.std.specs.Prelude.{◌≡◌, ◌≤◌, length, drop};
ghost use Rattle.words.specs.Words.{entry};
ghost use Rattle.sheet.specs.Sheet.{limit, ended, no_size, out_of_range};
ghost use Rattle.sheet.specs.Sheet as sheet;
ghost use Rattle.refusals.specs.Numbers.{number};
ghost use Rattle.items.specs.Inner.{ItemIs};
ghost use Rattle.rows.specs.Inner.{LiteralAt, FaultIs, RowsAre, OptionalIs, faults, fault_number, has_fault, content_of};
ghost use Rattle.cue.specs.Sizes.{size_limit};

use items::{Item, item_at};
use refusals::Refusal;

// Entries lie from -LIMIT to LIMIT.
const LIMIT: u64 = 100000;

// What the items of a line may be: a size, an entry, a due mark.
#[derive(Clone, Copy)]
pub enum Items {
    Size,
    Entry,
    Mark,
}

// The kinds of fault that an item of good form can have.
#[derive(Clone, Copy)]
enum Fault {
    AbsentSize,
    NoSize,
    OutOfRange,
    AbsentMark,
}

// Reads `lines` lines of `count` items, each with the same key, into lent rows, and says where they end, or leaves them at the first fault met. A
// line is read to its end before its items are judged: a wrong form (2) comes before what the items are, and that goes by kind of fault and not by
// item. The rows are lent, since a table that comes back by value is copied on its way: 490 ns for a kind of line and not 180.
pub fn read_rows(
    s: &[u8],
    from: usize,
    key: &[u8],
    content: Items,
    lines: usize,
    count: usize,
    rows: &mut [[u64; 6]; 6],
) -> Result<usize, Refusal>
    requires { (from ≤ length s.now) × (lines ≤ size_limit) × (count ≤ size_limit) }
    ensures { RowsAre (sheet.rows key.now (content_of content) lines count (drop from s.now)) s.now result
        rows.new }
{
    *rows = [[0u64; 6]; 6];
    let mut at = from;
    let mut met = None;
    'lines: for i in 0..lines {
        if !literal_at(s, at, key) {
            met = Some(Refusal::WrongForm);
            break 'lines;
        }
        at += key.len();
        let mut row = [0u64; 6];
        'items: for k in 0..count {
            match ended_item(s, at, count - k - 1) {
                Some(item) => {
                    row[k] = item.word;
                    at = item.next;
                }
                None => {
                    met = Some(Refusal::WrongForm);
                    break 'lines;
                }
            }
        }
        match first_fault(content, &row, count) {
            Some(fault) => {
                met = Some(fault.refusal());
                break 'lines;
            }
            None => rows[i] = row,
        }
    }
    match met {
        Some(refusal) => Err(refusal),
        None => Ok(at),
    }
}

// Reads such lines where a sheet may have or not have them, which the key that comes next decides: their rows, if they are there, and the place
// behind them. What a kind of line is like is said in the words of the call, as above: a struct of them would be built for each call and taken apart.
pub fn read_optional(
    s: &[u8],
    from: usize,
    key: &[u8],
    content: Items,
    lines: usize,
    count: usize,
) -> Result<(Option<[[u64; 6]; 6]>, usize), Refusal>
    requires { (from ≤ length s.now) × (lines ≤ size_limit) × (count ≤ size_limit) }
    ensures { OptionalIs key.now (content_of content) lines count s.now from result }
{
    if !literal_at(s, from, key) {
        return Ok((None, from));
    }
    let mut rows = [[0u64; 6]; 6];
    let next = read_rows(s, from, key, content, lines, count, &mut rows)?;
    Ok((Some(rows), next))
}

// The item at `at`, which `left` more of its line follow, with the byte behind it: a comma, or LF behind the last.
fn ended_item(s: &[u8], at: usize, left: usize) -> Option<Item>
    requires { at ≤ length s.now }
    ensures { ItemIs limit (ended left) s.now at result }
{
    let item = item_at(s, at, LIMIT)?;
    let end = if left == 0 { b'\n' } else { b',' };
    if s.len() <= item.next {
        return None;
    }
    if s[item.next] != end {
        return None;
    }
    Some(Item {
        word: item.word,
        next: item.next + 1,
    })
}

// The bytes at `at` begin with the key.
pub fn literal_at(s: &[u8], at: usize, key: &[u8]) -> bool
    requires { at ≤ length s.now }
    ensures { LiteralAt s.now at key.now result }
{
    s[at..].starts_with(key)
}

// The fault of a line whose items have their form: for each kind of fault in order, for each item, left at the first hit.
fn first_fault(content: Items, row: &[u64; 6], count: usize) -> Option<Fault>
    requires { count ≤ size_limit }
    ensures { FaultIs (content_of content) row.now count result }
{
    let mut met = None;
    'kinds: for fault in faults_of(content) {
        for word in &row[..count] {
            if fault.met_by(*word) {
                met = Some(*fault);
                break 'kinds;
            }
        }
    }
    met
}

// The kinds of fault that the items of a line can have, in the order in which they are looked for.
fn faults_of(content: Items) -> &'static [Fault]
    ensures { result.now ≡ faults (content_of content) }
{
    match content {
        Items::Size => &[Fault::AbsentSize, Fault::NoSize],
        Items::Entry => &[Fault::OutOfRange],
        Items::Mark => &[Fault::OutOfRange, Fault::AbsentMark],
    }
}

impl Fault {
    // An absent size is a wrong form.
    fn refusal(self) -> Refusal
        ensures { number result ≡ fault_number self }
    {
        match self {
            Fault::AbsentSize => Refusal::WrongForm,
            Fault::NoSize => Refusal::NoSize,
            Fault::OutOfRange => Refusal::OutOfRange,
            Fault::AbsentMark => Refusal::MarkAbsent,
        }
    }

    // The entry has this kind of fault; an absent size and an absent due mark are asked for alike.
    fn met_by(self, word: u64) -> bool
        ensures { result ≡ has_fault self (entry word) }
    {
        match self {
            Fault::NoSize => no_size(word),
            Fault::OutOfRange => out_of_range(word),
            Fault::AbsentSize | Fault::AbsentMark => !words::present(word),
        }
    }
}

fn no_size(word: u64) -> bool
    ensures { result ≡ no_size (entry word) }
{
    if !words::present(word) {
        return false;
    }
    let size = words::above(word);
    if size == 0 {
        return true;
    }
    6 < size
}

fn out_of_range(word: u64) -> bool
    ensures { result ≡ out_of_range (entry word) }
{
    if LIMIT < words::above(word) {
        return true;
    }
    LIMIT < words::below(word)
}
