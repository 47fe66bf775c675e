// The operations for C and Rust. Nothing is asked of a length: a word that does not fit an answer is dropped, and as many times are
// taken as are lent.
#![tactic(auto)]

ghost use Rattle.std.specs.Prelude.{◌≡◌, length};
ghost use Rattle.testing.specs.Testing.{testing};
ghost use Rattle.planning.specs.Planning.{planning, space_after, plan_answer};
ghost use Rattle.keeping.specs.Keeping.{keeping, kept_answer};
ghost use Rattle.comparing.specs.Comparing.{comparing, compared_space};
ghost use Rattle.reaching.specs.Reaching.{reaching, reached_space, reach_answer};
ghost use Rattle.hiring.specs.Hiring.{hiring, bytes_after, hire_answer};
ghost use Rattle.timing.specs.Times.{component};
ghost use Rattle.answer_words.specs.Words.{plan_words, kept_words, compare_words, reach_words, hire_words};
ghost use Rattle.answer_words.specs.Words.{plan_number, kept_number, test_number, compare_number, reach_number, hire_number};

use answer_words::answers::{write_kept, write_plan};
use answer_words::compared::answer_compared;
use answer_words::hired::write_hired;
use answer_words::reached::{write_found, write_reached};
use answer_words::times::lent_timing;

// 0 or the refusal. The list goes to the front of the space; deviation, steps, selections, count, the spare triggers, bit 0 for trigger 1, and how
// many words a line takes to the answer; for 9 count and words alone.
#[unsafe(no_mangle)]
pub extern "C" fn tuzhelar_plan(sheet: &[u8], space: &mut [i32], answer: &mut [i64]) -> u32
    ensures returned { result ≡ plan_number (planning sheet.now space.old) }
    ensures listed { space.new ≡ space_after (planning sheet.now space.old) space.old }
    ensures answered { answer.new ≡
        plan_words (plan_answer (planning sheet.now space.old)) answer.old }
{
    let r = planning::plan(sheet, space);
    write_plan(answer, r)
}

// 0 or the refusal. Deviation, steps, selections, panels, and byte and count for each of six panels go to the answer.
#[unsafe(no_mangle)]
pub extern "C" fn tuzhelar_kept(sheet: &[u8], answer: &mut [i64]) -> u32
    ensures returned { result ≡ kept_number (keeping sheet.now) }
    ensures answered { answer.new ≡ kept_words (kept_answer (keeping sheet.now)) answer.old }
{
    let r = keeping::kept_table(sheet);
    write_kept(answer, r)
}

// 100 if the times are tightest and in time, 101 if they are not, or the refusal.
#[unsafe(no_mangle)]
pub extern "C" fn tuzhelar_test(sheet: &[u8], times: &[i64]) -> u32
    ensures { result ≡ test_number (testing sheet.now (length times.now) (component times.now)) }
{
    match testing::test_timing(sheet, lent_timing(times)) {
        Ok(true) => 100,
        Ok(false) => 101,
        Err(refusal) => u32::from(refusal.number()),
    }
}

// 0 or the refusal. The list goes to the front of the space, its number of lines, the six components of the latest tightest timing in time
// that is no later than the times, and how many words a line takes to the answer; for 9 count and words alone.
#[unsafe(no_mangle)]
pub extern "C" fn tuzhelar_latest(
    sheet: &[u8],
    times: &[i64],
    space: &mut [i32],
    answer: &mut [i64],
) -> u32
    ensures returned { result ≡ reach_number
        (reaching sheet.now (length times.now) (component times.now) space.old) }
    ensures listed { space.new ≡ reached_space
        (reaching sheet.now (length times.now) (component times.now) space.old)
        space.old }
    ensures answered { answer.new ≡ reach_words (reach_answer
        (reaching sheet.now (length times.now) (component times.now) space.old))
        answer.old }
{
    let wish = lent_timing(times);
    let r = reaching::latest_timing(sheet, wish, space);
    // What was found is named here, beside the wish: this function shows which of the two is answered.
    match r {
        Ok(reached) => write_found(answer, reached),
        Err(_) => write_reached(answer, r),
    }
}

// 100 if the same timings are tightest on both sheets, 101 if they are not, 102 if the numbers of triggers or the spares differ; or the first
// sheet's refusal, or 200 more than the second's. The lists go to the fronts of the spaces, their numbers of lines and how many words a line of
// each takes to the answer; for 9 count and words of that sheet alone.
#[unsafe(no_mangle)]
pub extern "C" fn tuzhelar_same(
    first: &[u8],
    second: &[u8],
    left: &mut [i32],
    right: &mut [i32],
    answer: &mut [i64],
) -> u32
    ensures returned { result ≡
        compare_number (comparing first.now second.now left.old right.old) }
    ensures left { left.new ≡ compared_space (planning first.now left.old)
        (planning second.now right.old) left.old }
    ensures right { right.new ≡ compared_space (planning second.now right.old)
        (planning first.now left.old) right.old }
    ensures answered { answer.new ≡
        compare_words (comparing first.now second.now left.old right.old) answer.old }
{
    let r = comparing::same_timings(first, second, left, right);
    answer_compared(answer, r)
}

// 0, 12 or 13. The sheet that the sizes and the state make goes to the front of the bytes, how many it takes and the next state to the answer.
#[unsafe(no_mangle)]
pub extern "C" fn tuzhelar_hire(
    panels: usize,
    triggers: usize,
    state: u32,
    bytes: &mut [u8],
    answer: &mut [i64],
) -> u32
    ensures returned { result ≡ hire_number (hiring panels triggers state (length bytes.old)) }
    ensures written { bytes.new ≡
        bytes_after (hiring panels triggers state (length bytes.old)) bytes.old }
    ensures answered { answer.new ≡
        hire_words (hire_answer (hiring panels triggers state (length bytes.old))) answer.old }
{
    let r = hiring::hire(panels, triggers, state, bytes);
    write_hired(answer, r)
}
