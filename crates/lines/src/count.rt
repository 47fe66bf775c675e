// How many lines there are, where one buffer does not hold them: they are gathered one buffer-full after the other.
ghost use Rattle.std.specs.Prelude.{◌≡◌, length};
ghost use Rattle.cue.specs.Cue.{Cue};
ghost use Rattle.cue.specs.Method.{lines};
ghost use Rattle.candidates.specs.Drawable.{Drawable};

use buffer::{ROOM, Store};
use candidates::Sources;
use gather::gather;
use words::LineWords;

pub fn count_lines(sources: Sources) -> usize
    requires { let M = sources.marks.now in (P : Cue) × Drawable M.triggers P M sources.star.now sources.lag.now sources.needs.now }
    ensures { let M = sources.entry.marks.now in (P : Cue) →
        Drawable M.triggers P M sources.entry.star.now sources.entry.lag.now sources.entry.needs.now →
        result ≡ length (lines M.triggers P) }
{
    let mut buffer = Store {
        rows: [[0u64; 6]; ROOM],
        len: 0,
    };
    let mut last = LineWords {
        count: sources.marks.triggers,
        at: [0u64; 6],
    };
    let mut count: usize = 0;
    loop {
        gather(&mut buffer, last, sources);
        count += buffer.len;
        if buffer.len < ROOM {
            return count;
        }
        let words = buffer.rows[ROOM - 1];
        last.at = words;
    }
}
