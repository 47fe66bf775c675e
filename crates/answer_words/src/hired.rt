// What the generator of sheets answers, as words.
ghost use Rattle.std.specs.Prelude.{◌≡◌, ◌≤◌, IfOk};
ghost use Rattle.cue.specs.Sizes.{most_lines};
ghost use Rattle.refusals.specs.Numbers as refusal;
ghost use Rattle.answer_words.specs.Words.{hire_words, number_by};

use crate::answers::{count_word, put};
use hiring::Hired;
use refusals::Refusal;

// How many bytes were written, of which there are fewer than a list can have lines, and the next state; the number returned.
pub fn write_hired(lent: &mut [i64], r: Result<Hired, Refusal>) -> u32
    requires { IfOk r (λ h. h.length ≤ most_lines) }
    ensures number { result ≡ number_by refusal.number r }
    ensures words { lent.new ≡ hire_words r lent.old }
{
    match r {
        Ok(hired) => {
            put(lent, 0, count_word(hired.length));
            put(lent, 1, i64::from(hired.state));
            0
        }
        Err(refusal) => u32::from(refusal.number()),
    }
}
