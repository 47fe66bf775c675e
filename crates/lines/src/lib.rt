// From prepared tables to document 01's list in a lent space. A buffer gathers the lines in order, one buffer-full after the other.
#![tactic(auto)]

ghost use Rattle.cue.specs.Cue.{Cue};
ghost use Rattle.cue.specs.Method.{lines};
ghost use Rattle.candidates.specs.Drawable.{Drawable};
ghost use Rattle.std.specs.Prelude.{◌*◌, ◌≤◌, length};
ghost use Rattle.cue.specs.Written.{line_size};
ghost use Rattle.lines.specs.Listing.{Answers};

use crate::count::count_lines;
use crate::write::{write_held, write_lines};
use buffer::{ROOM, Store};
use candidates::Sources;
use gather::gather;
use words::LineWords;

mod count;
mod write;

// The lines do not fit: how many there are.
#[derive(Clone, Copy, Debug, PartialEq, Eq)]
pub struct NoRoom {
    pub count: usize,
}

// The list at the front of the lent space, seven words a line, and how many lines it has, where there is room for so many; else no change.
pub fn list(out: &mut [i32], room: usize, sources: Sources) -> Result<usize, NoRoom>
    requires { let M = sources.marks.now in (line_size * room ≤ length out.old) ×
        ((P : Cue) × Drawable M.triggers P M sources.star.now sources.lag.now sources.needs.now) }
    ensures { let M = sources.entry.marks.now in (P : Cue) →
        Drawable M.triggers P M sources.entry.star.now sources.entry.lag.now sources.entry.needs.now →
        Answers M.triggers (lines M.triggers P) room out.old out.new result }
{
    let mut buffer = Store {
        rows: [[0u64; 6]; ROOM],
        len: 0,
    };
    let n = sources.marks.triggers;
    let none = LineWords {
        count: n,
        at: [0u64; 6],
    };
    gather(&mut buffer, none, sources);
    // A buffer that was not filled holds the whole list.
    if buffer.len < ROOM {
        if room < buffer.len {
            return Err(NoRoom { count: buffer.len });
        }
        write_held(out, 0, &buffer, n);
        return Ok(buffer.len);
    }
    let count = count_lines(sources);
    if room < count {
        return Err(NoRoom { count });
    }
    write_lines(out, sources);
    Ok(count)
}
