// Answers as words at the front of those lent.
ghost use Rattle.std.specs.Prelude.{◌≡◌, ◌≤◌, IfOk, pos, set};
ghost use Rattle.std.proofs.lemmas.List.Edits.{sets};
ghost use Rattle.refusals.specs.Numbers as refusal;
ghost use Rattle.planning.specs.Planning.{unplanned_number, needed, extent_of};
ghost use Rattle.answer_words.specs.Words.{pairs, plan_words, kept_words, room_words, number_by};
ghost use Rattle.answer_words.specs.Inner.{Few};
ghost use Rattle.cue.specs.Sizes.{size_limit, most_lines};

use keeping::KeptTable;
use planning::{CuePlan, Unplanned};
use refusals::Refusal;

// There are at most 6 · 6⁶ lines, so that their count is a word of 64 bits with a sign; and so are the words of a line, which are fewer.
pub fn count_word(count: usize) -> i64
    requires { count ≤ most_lines }
    ensures { result ≡ pos count }
{
    count as i64
}

// A word past the end is dropped, so that no caller can be wrong about a length.
pub fn put(lent: &mut [i64], at: usize, v: i64)
    ensures { lent.new ≡ set lent.old at v }
{
    if at < lent.len() {
        lent[at] = v;
    }
}

// For 9 the count needed and how many words a line takes, each at its place. It is a number, since the words are promised of every number.
pub fn put_room(lent: &mut [i64], at: usize, behind: usize, number: u8, count: usize, wide: usize)
    requires { (count ≤ most_lines) × (wide ≤ most_lines) }
    ensures { lent.new ≡ room_words at behind number count wide lent.old }
{
    if number == 9 {
        put(lent, at, count_word(count));
        put(lent, behind, count_word(wide));
    }
}

// The same for planning's answer where there is no plan.
pub fn put_needed(lent: &mut [i64], at: usize, behind: usize, unplanned: Unplanned)
    requires { Few (needed unplanned) }
    ensures { lent.new ≡ room_words at behind (unplanned_number unplanned) (needed unplanned).count (needed unplanned).width lent.old }
{
    if let Unplanned::NoRoom(room) = unplanned {
        put_room(lent, at, behind, 9, room.count, room.width);
    }
}

// The words of planning's answer; the number returned.
pub fn write_plan(lent: &mut [i64], r: Result<CuePlan, Unplanned>) -> u32
    requires { Few (extent_of r) }
    ensures number { result ≡ number_by unplanned_number r }
    ensures words { lent.new ≡ plan_words r lent.old }
{
    match r {
        Ok(plan) => {
            put(lent, 0, plan.deviation);
            put(lent, 1, i64::from(plan.steps));
            put(lent, 2, i64::from(plan.selections));
            put(lent, 3, count_word(plan.count));
            put(lent, 4, i64::from(plan.spares));
            put(lent, 5, count_word(plan.width));
            0
        }
        Err(unplanned) => {
            put_needed(lent, 3, 5, unplanned);
            u32::from(unplanned.number())
        }
    }
}

// The words of a kept table; the number returned.
pub fn write_kept(lent: &mut [i64], r: Result<KeptTable, Refusal>) -> u32
    requires { IfOk r (λ t. t.panels ≤ size_limit) }
    ensures number { result ≡ number_by refusal.number r }
    ensures words { lent.new ≡ kept_words r lent.old }
{
    match r {
        Ok(table) => {
            put(lent, 0, table.deviation);
            put(lent, 1, i64::from(table.steps));
            put(lent, 2, i64::from(table.selections));
            put(lent, 3, table.panels as i64);
            let kept = table.kept;
            let counts = table.counts;
            put_panels(lent, kept, counts);
            0
        }
        Err(refusal) => u32::from(refusal.number()),
    }
}

// Byte and count for each of six panels, behind the four other words.
fn put_panels(lent: &mut [i64], kept: [u8; 6], counts: [u8; 6])
    ensures { lent.new ≡ sets lent.old 4 (pairs 6 kept counts) }
{
    for i in 0..6 {
        put(lent, 4 + 2 * i, i64::from(kept[i]));
        put(lent, 5 + 2 * i, i64::from(counts[i]));
    }
}
