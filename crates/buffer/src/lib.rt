// Lines in order, or rays, in an array that is filled from the front. Each stands by its six words: all have one count.
#![tactic(auto)]

ghost use Rattle.std.specs.Prelude.{◌≡◌, ◌+◌, ◌≤◌, ◌<◌, min, length};
ghost use Rattle.tables.specs.Held.{Says};
ghost use Rattle.buffer.specs.Buffer.{room, Ordered, Placed, Fresh, Inserted};

use candidates::order::below;
use words::LineWords;

// How many lines the buffer has room for: more than there are on nearly every sheet.
pub const ROOM: usize = 80;

// Lines or rays, each by its six words: the first len rows hold them.
#[derive(Clone, Copy)]
pub struct Store<const N: usize> {
    pub rows: [[u64; 6]; N],
    pub len: usize,
}

pub type Buffer = Store<ROOM>;

impl Buffer {
    // The place of a line: the first whose line does not stand before it. By hand, since `partition_point` compares up to twice more: a plan with
    // 72 lines takes 2 % more instructions with it.
    pub fn place(&self, line: LineWords) -> usize
        requires { (self.now.len ≤ room) × Ordered self.now.len self.now.rows }
        ensures { Placed self.now.rows self.now.len line.at result }
    {
        let mut low: usize = 0;
        let mut high = self.len;
        while low < high {
            let mid = low + (high - low) / 2;
            let at = self.rows[mid];
            let middle = LineWords {
                count: line.count,
                at,
            };
            if below(middle, line) {
                low = mid + 1;
            } else {
                high = mid;
            }
        }
        low
    }

    // At its place the line is not there yet, nor past the end of a full buffer.
    pub fn fresh(&self, at: usize, line: LineWords) -> bool
        requires { (at ≤ self.now.len) × (self.now.len ≤ room) }
        ensures { Says (Fresh self.now.rows self.now.len at line.at) result }
    {
        if at == ROOM {
            return false;
        }
        if at == self.len {
            return true;
        }
        let words = self.rows[at];
        let there = LineWords {
            count: line.count,
            at: words,
        };
        below(line, there)
    }

    // The line at a place, those from there on one place further: the last one falls out of a full buffer. By hand, since `copy_within` would have
    // the library need `memmove`.
    pub fn insert(&mut self, at: usize, line: LineWords)
        requires { (at ≤ self.old.len) × (at < room) × (self.old.len ≤ room) }
        ensures { Inserted self.old.rows self.old.len at line.at self.new.rows self.new.len }
    {
        self.len = (self.len + 1).min(ROOM);
        for k in (at + 1..self.len).rev() {
            self.rows[k] = self.rows[k - 1];
        }
        let words = line.at;
        self.rows[at] = words;
    }
}
