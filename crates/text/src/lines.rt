// Items put by a writer: the plan's lines from their words, a kept table's panels, the times of a timing.
ghost use Rattle.std.specs.Prelude.{[], ◌∷◌, cond, ◌+◌, ◌*◌, ◌≤◌, pos, length, get_or};
ghost use Rattle.maxplus.specs.Finite.{each};
ghost use Rattle.sheet.specs.Text.{bytes};
ghost use Rattle.trigger_sets.specs.Sets.{bit};
ghost use Rattle.writing.specs.Numerals.{numeral, item};
ghost use Rattle.writing.specs.Texts.{joined, line_text, panel_texts};
ghost use Rattle.cue.specs.Standing.{of_signed, line_at};
ghost use Rattle.writing.specs.Writing.{Put, items, text_at, texts_of};
ghost use Rattle.cue.specs.Written.{line_size};

use trigger_sets::has;
use words::{CAPPED_SIZE, LINE_SIZE};
use writing::Writer;

// A component: `s` for a spare trigger's.
fn put_component(w: &mut Writer<'_>, word: i32, spare: bool)
    requires { w.old.at + 24 ≤ length w.old.out.now }
    ensures puts { Put w.old w.new (cond spare (bytes "s") (item (of_signed word))) }
    ensures short { w.new.at ≤ w.old.at + 11 }
{
    if spare {
        w.put_byte(b's');
        return;
    }
    w.put_item(word);
}

// The items of a line's words, which begin behind its first: at most 12 bytes each with the comma, and put_component asks 24 for the sixth.
fn put_items(w: &mut Writer<'_>, line: &[i32], n: usize, spares: u8)
    requires { (w.old.at + 90 ≤ length w.old.out.now) × (n ≤ 6) × (line_size ≤ length line.now) }
    ensures puts { Put w.old w.new (items n (bit spares) (line_at n line.now 0)) }
    ensures short { w.new.at ≤ w.old.at + 72 }
{
    for j in 0..n {
        w.put_comma(j);
        put_component(w, line[1 + j], has(spares, j));
    }
}

// A line: 5 bytes of key, at most 72 of items and commas, LF.
fn put_line(w: &mut Writer<'_>, line: &[i32], n: usize, spares: u8)
    requires { (w.old.at + 100 ≤ length w.old.out.now) × (n ≤ 6) × (line_size ≤ length line.now) }
    ensures puts { Put w.old w.new (line_text n (bit spares) (line_at n line.now 0)) }
    ensures short { w.new.at ≤ w.old.at + 78 }
{
    w.put_bytes(b"line=");
    put_items(w, line, n, spares);
    w.put_byte(b'\n');
}

// A line and, if it takes eight words, its cap: 4 bytes of key, a number of at most 11, LF.
fn put_capped(w: &mut Writer<'_>, line: &[i32], n: usize, spares: u8)
    requires { (w.old.at + 120 ≤ length w.old.out.now) × (n ≤ 6) × (line_size ≤ length line.now) }
    ensures puts { Put w.old w.new (text_at n (bit spares) (length line.now) line.now 0) }
    ensures short { w.new.at ≤ w.old.at + 94 }
{
    put_line(w, line, n, spares);
    if line.len() == CAPPED_SIZE {
        w.put_field(b"cap=", i64::from(line[LINE_SIZE]));
    }
}

// The first `count` lines of the words, 100 bytes for each.
pub fn put_lines(w: &mut Writer<'_>, words: &[i32], wide: usize, n: usize, count: usize, spares: u8)
    requires { (w.old.at + 100 * count + 20 ≤ length w.old.out.now) × (n ≤ 6) × (line_size ≤ wide) × (wide * count ≤ length words.now) }
    ensures { Put w.old w.new (texts_of n (bit spares) wide count words.now) }
{
    for line in words.chunks_exact(wide).take(count) {
        put_capped(w, line, n, spares);
    }
}

// A panel's line: its byte and its bit count, at most 3 digits each, where put_natural asks 20 for the second.
fn put_panel(w: &mut Writer<'_>, kept: u8, count: u8)
    requires { w.old.at + 30 ≤ length w.old.out.now }
    ensures puts { Put w.old w.new (panel_texts ((kept, count) ∷ [])) }
    ensures short { w.new.at ≤ w.old.at + 13 }
{
    w.put_bytes(b"kept=");
    w.put_natural(u64::from(kept));
    w.put_byte(b',');
    w.put_natural(u64::from(count));
    w.put_byte(b'\n');
}

// The lines of the first `panels` panels, at most 13 bytes each.
pub fn put_panels(w: &mut Writer<'_>, panels: usize, kept: [u8; 6], counts: [u8; 6])
    requires { (w.old.at + 100 ≤ length w.old.out.now) × (panels ≤ 6) }
    ensures puts { Put w.old w.new (panel_texts (each panels (λ i. (get_or kept i 0, get_or counts i 0) ∷ []))) }
    ensures short { w.new.at ≤ w.old.at + 78 }
{
    for i in 0..panels {
        put_panel(w, kept[i], counts[i]);
    }
}

// The first n components of a timing: at most 21 bytes each with the comma, and put_number asks 24 for the sixth.
pub fn put_times(w: &mut Writer<'_>, n: usize, times: [i64; 6])
    requires { (w.old.at + 140 ≤ length w.old.out.now) × (n ≤ 6) }
    ensures puts { Put w.old w.new (joined (each n (λ j. numeral (get_or times j (pos 0)) ∷ []))) }
    ensures short { w.new.at ≤ w.old.at + 126 }
{
    for j in 0..n {
        w.put_comma(j);
        w.put_number(times[j]);
    }
}
