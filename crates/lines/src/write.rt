// Lines in the lent space: "seven signed 32-bit words, absent being the least such number".
ghost use Rattle.std.specs.Prelude.{◌≡◌, ℕ, ◌+◌, ◌*◌, ◌≤◌, List, length, take};
ghost use Rattle.maxplus.specs.Finite.{In};
ghost use Rattle.cue.specs.Cue.{Cue};
ghost use Rattle.cue.specs.Method.{lines};
ghost use Rattle.cue.specs.Written.{line_size, line_words, list_words};
ghost use Rattle.sheet.specs.Sizes.{line_down};
ghost use Rattle.tables.specs.Held.{CloselyV};
ghost use Rattle.tables.specs.Lines.{Sized, line_of};
ghost use Rattle.buffer.specs.Buffer.{room, held};
ghost use Rattle.candidates.specs.Drawable.{Drawable};
ghost use Rattle.buffer.specs.Space.{laid};
ghost use Rattle.cue.specs.Sizes.{size_limit};

use buffer::{Buffer, ROOM, Store};
use candidates::Sources;
use gather::gather;
use words::{LINE_SIZE, LineWords};

// The words of one line from a place on: its count of triggers, then its components.
fn write_line(out: &mut [i32], at: usize, line: LineWords)
    requires { (line.count ≤ size_limit) × (at + line_size ≤ length out.old) × Sized line.count line.at
        × CloselyV line.count line_down line.at }
    ensures { out.new ≡ laid out.old at (line_words line.count (line_of line.count line.at)) }
{
    let count = line.count;
    out[at] = count as i32;
    for j in 0..6 {
        out[at + 1 + j] = words::signed(line.at[j]);
    }
}

// Those of the lines that the buffer holds.
pub fn write_held(out: &mut [i32], at: usize, buffer: &Buffer, n: usize)
    requires { (n ≤ size_limit) × (buffer.now.len ≤ room) × (length buffer.now.rows ≡ room)
        × (at + line_size * buffer.now.len ≤ length out.old)
        × ((w : List ℕ) → In w (take buffer.now.len buffer.now.rows) → Sized n w × CloselyV n line_down w) }
    ensures { out.new ≡ laid out.old at (list_words n (held n buffer.now.len buffer.now.rows)) }
{
    for k in 0..buffer.len {
        let words = buffer.rows[k];
        let line = LineWords {
            count: n,
            at: words,
        };
        write_line(out, at + LINE_SIZE * k, line);
    }
}

// The whole list from the front of a space that has room, one buffer-full after the other.
pub fn write_lines(out: &mut [i32], sources: Sources)
    requires { let M = sources.marks.now in (P : Cue) × Drawable M.triggers P M sources.star.now sources.lag.now sources.needs.now
        × (line_size * length (lines M.triggers P) ≤ length out.old) }
    ensures { let M = sources.entry.marks.now in (P : Cue) →
        Drawable M.triggers P M sources.entry.star.now sources.entry.lag.now sources.entry.needs.now →
        line_size * length (lines M.triggers P) ≤ length out.old →
        out.new ≡ laid out.old 0 (list_words M.triggers (lines M.triggers P)) }
{
    let mut buffer = Store {
        rows: [[0u64; 6]; ROOM],
        len: 0,
    };
    let mut last = LineWords {
        count: sources.marks.triggers,
        at: [0u64; 6],
    };
    let mut at: usize = 0;
    loop {
        gather(&mut buffer, last, sources);
        write_held(out, at, &buffer, sources.marks.triggers);
        if buffer.len < ROOM {
            return;
        }
        at += LINE_SIZE * buffer.len;
        let words = buffer.rows[ROOM - 1];
        last.at = words;
    }
}
