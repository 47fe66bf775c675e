// "sorted by component 1, then 2 and so on, absent lowest": the order of entries is the order of their words.
ghost use Rattle.maxplus.specs.Line.{lt_l};
ghost use Rattle.tables.specs.Held.{Says};
ghost use Rattle.tables.specs.Lines.{line_of};

use words::LineWords;

// a stands before b.
pub fn below(a: LineWords, b: LineWords) -> bool
    ensures { Says (lt_l 6 (line_of 6 a.at) (line_of 6 b.at)) result }
{
    a.at < b.at
}
