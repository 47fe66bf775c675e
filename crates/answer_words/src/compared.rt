// What comparing two sheets answers, as a number and as words.
ghost use Rattle.std.specs.Prelude.{◌≡◌};
ghost use Rattle.comparing.specs.Comparing.{compare_answer};
ghost use Rattle.answer_words.specs.Words.{compare_number, compare_words, written_words};
ghost use Rattle.answer_words.specs.Inner.{Few, Counted};

use crate::answers::{count_word, put, put_needed};
use comparing::{Compared, Uncompared};
use planning::Extent;

// 100, 101 or 102 with how much was written, or a refusal, to which 200 is added for the second sheet; with 9 goes how much is needed.
pub fn answer_compared(lent: &mut [i64], r: Result<Compared, Uncompared>) -> u32
    requires { Counted (compare_answer r) }
    ensures number { result ≡ compare_number (compare_answer r) }
    ensures words { lent.new ≡ compare_words (compare_answer r) lent.old }
{
    match r {
        Ok(Compared::Same(a, b)) => {
            put_extents(lent, a, b);
            100
        }
        Ok(Compared::Different(a, b)) => {
            put_extents(lent, a, b);
            101
        }
        Ok(Compared::Unlike(a, b)) => {
            put_extents(lent, a, b);
            102
        }
        Err(Uncompared::First(unplanned)) => {
            put_needed(lent, 0, 2, unplanned);
            u32::from(unplanned.number())
        }
        Err(Uncompared::Second(unplanned)) => {
            put_needed(lent, 1, 3, unplanned);
            200 + u32::from(unplanned.number())
        }
    }
}

// The numbers of lines, then how many words a line of each list takes.
fn put_extents(lent: &mut [i64], a: Extent, b: Extent)
    requires { Few a × Few b }
    ensures { lent.new ≡ written_words a b lent.old }
{
    put(lent, 0, count_word(a.count));
    put(lent, 1, count_word(b.count));
    put(lent, 2, count_word(a.width));
    put(lent, 3, count_word(b.width));
}
