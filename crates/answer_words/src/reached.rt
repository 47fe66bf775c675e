// What reaching for the latest timing answers, as words.
ghost use Rattle.std.specs.Prelude.{◌≡◌, Ok};
ghost use Rattle.std.proofs.lemmas.List.Edits.{sets};
ghost use Rattle.timing.specs.Times.{component};
ghost use Rattle.cue.specs.Sizes.{six};
ghost use Rattle.planning.specs.Planning.{unplanned_number};
ghost use Rattle.reaching.specs.Reaching.{reach_extent};
ghost use Rattle.answer_words.specs.Words.{reach_words, number_by};
ghost use Rattle.answer_words.specs.Inner.{Few};

use crate::answers::{count_word, put, put_needed};
use planning::Unplanned;
use reaching::Reached;

// The number of lines, the six components and how many words a line takes, or for 9 the count needed and these words; the number returned.
pub fn write_reached(lent: &mut [i64], r: Result<Reached, Unplanned>) -> u32
    requires { Few (reach_extent r) }
    ensures number { result ≡ number_by unplanned_number r }
    ensures words { lent.new ≡ reach_words r lent.old }
{
    match r {
        Ok(reached) => write_found(lent, reached),
        Err(unplanned) => {
            put_needed(lent, 0, 7, unplanned);
            u32::from(unplanned.number())
        }
    }
}

// The same where a timing was found: the number returned is 0.
pub fn write_found(lent: &mut [i64], reached: Reached) -> u32
    requires { Few (reach_extent (Ok reached)) }
    ensures number { result ≡ 0 }
    ensures words { lent.new ≡ reach_words (Ok reached) lent.old }
{
    put(lent, 0, count_word(reached.count));
    let timing = reached.timing;
    let at = timing.at;
    put_times(lent, at);
    put(lent, 7, count_word(reached.width));
    0
}

// Six components, behind the number of lines.
fn put_times(lent: &mut [i64], at: [i64; 6])
    ensures { lent.new ≡ sets lent.old 1 (six (component at)) }
{
    for j in 0..6 {
        put(lent, 1 + j, at[j]);
    }
}
