// The rows of a table put by a writer, as lines of a sheet.
#![tactic(auto)]

ghost use Rattle.std.specs.Prelude.{◌+◌, ◌*◌, ◌≤◌, length};
ghost use Rattle.cue.specs.Sizes.{size_limit};
ghost use Rattle.words.specs.Words.{entry, Close};
ghost use Rattle.tables.specs.Held.{meant, meant_v, Closely, CloselyV};
ghost use Rattle.sheet.specs.Sheet.{limit};
ghost use Rattle.writing.specs.Numerals.{item};
ghost use Rattle.writing.specs.Writing.{Put};
ghost use Rattle.sheet_text.specs.SheetText.{row_text, rows_text, row_items};

use writing::Writer;

// An entry: a lone minus for absent, or a number of at most 7 bytes, for which put_number asks 24.
fn put_entry(w: &mut Writer<'_>, word: u64)
    requires { (w.old.at + 24 ≤ length w.old.out.now) × Close limit word }
    ensures puts { Put w.old w.new (item (entry word)) }
    ensures short { w.new.at ≤ w.old.at + 7 }
{
    if !words::present(word) {
        w.put_byte(b'-');
        return;
    }
    w.put_number(words::number(word));
}

// The first `count` entries of a row, split by commas: at most 8 bytes each with the comma.
fn put_entries(w: &mut Writer<'_>, row: &[u64; 6], count: usize)
    requires { (w.old.at + 80 ≤ length w.old.out.now) × (count ≤ size_limit) × CloselyV count limit row.now }
    ensures puts { Put w.old w.new (row_items count (meant_v row.now)) }
    ensures short { w.new.at ≤ w.old.at + 48 }
{
    for j in 0..count {
        w.put_comma(j);
        put_entry(w, row[j]);
    }
}

// A line: its key, its items, LF.
fn put_row(w: &mut Writer<'_>, key: &[u8], row: &[u64; 6], count: usize)
    requires { (w.old.at + length key.now + 80 ≤ length w.old.out.now) × (count ≤ size_limit) × CloselyV count limit row.now }
    ensures puts { Put w.old w.new (row_text key.now count (meant_v row.now)) }
    ensures short { w.new.at ≤ w.old.at + length key.now + 49 }
{
    w.put_bytes(key);
    put_entries(w, row, count);
    w.put_byte(b'\n');
}

// The lines of the first `lines` rows with a key of at most 11 bytes, 60 bytes for each.
pub fn put_rows(w: &mut Writer<'_>, key: &[u8], rows: &[[u64; 6]; 6], lines: usize, count: usize)
    requires { (w.old.at + 60 * lines + 40 ≤ length w.old.out.now) × (length key.now ≤ 11) × (lines ≤ size_limit) × (count ≤ size_limit) ×
        Closely lines count limit rows.now }
    ensures puts { Put w.old w.new (rows_text key.now lines count (meant rows.now)) }
    ensures short { w.new.at ≤ w.old.at + 60 * lines }
{
    for i in 0..lines {
        put_row(w, key, &rows[i], count);
    }
}
