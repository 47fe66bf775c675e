// Comparing two sheets: whether the same timings are tightest on both.
#![tactic(auto)]

ghost use Rattle.std.specs.Prelude.{◌≡◌, List, ◌+◌, ◌*◌, ◌≤◌, ℤ, length, take, drop};
ghost use Rattle.cue.specs.Written.{line_size, uncapped};
ghost use Rattle.tables.specs.Held.{Says};
ghost use Rattle.planning.specs.Planning.{planning, space_after, plan_answer, extent_of};
ghost use Rattle.planning.specs.Demands.{Planned};
ghost use Rattle.comparing.specs.Comparing.{comparing, compared_space, compare_answer};
ghost use Rattle.comparing.specs.Inner.{unplanned_in};

pub use planning::Extent;
use planning::{CuePlan, Unplanned, plan};
use words::LINE_SIZE;

// Whether the same timings are tightest on two sheets, or that their numbers of triggers or their spares differ; with either goes how much was
// written in each space.
#[derive(Clone, Copy, PartialEq, Eq, Debug)]
pub enum Compared {
    Same(Extent, Extent),
    Different(Extent, Extent),
    Unlike(Extent, Extent),
}

// Planning's refusal of the first sheet or of the second.
#[derive(Clone, Copy, PartialEq, Eq, Debug)]
pub enum Uncompared {
    First(Unplanned),
    Second(Unplanned),
}

// Whether the same timings are tightest on two sheets; their lists, caps left out, are compared where they are written, at the front of the two
// spaces. Each sheet is first planned with no room, so that a refusal leaves both spaces as they were.
pub fn same_timings(
    first: &[u8],
    second: &[u8],
    left: &mut [i32],
    right: &mut [i32],
) -> Result<Compared, Uncompared>
    ensures answer { compare_answer result ≡ comparing first.now second.now left.old right.old }
    ensures left { left.new ≡ compared_space (planning first.now left.old)
        (planning second.now right.old) left.old }
    ensures right { right.new ≡ compared_space (planning second.now right.old)
        (planning first.now left.old) right.old }
{
    refused(first, left.len()).map_err(Uncompared::First)?;
    refused(second, right.len()).map_err(Uncompared::Second)?;
    Ok(likened(first, second, left, right))
}

// What planning refuses with a space of so many words, found with no word of it: a list with no room is counted.
fn refused(bytes: &[u8], words: usize) -> Result<(), Unplanned>
    ensures { (space : List ℤ) → length space ≡ words → result ≡ unplanned_in (plan_answer (planning bytes.now space)) }
{
    let mut none = [0i32; 1];
    match plan(bytes, &mut none) {
        Ok(_) => Ok(()),
        Err(Unplanned::Refused(refusal)) => Err(Unplanned::Refused(refusal)),
        Err(Unplanned::NoRoom(needed)) => {
            if needed.count <= words / needed.width {
                return Ok(());
            }
            Err(Unplanned::NoRoom(needed))
        }
    }
}

// How much planning wrote.
fn extent_of(p: CuePlan) -> Extent
    ensures { result ≡ extent_of (Ok p) }
{
    Extent {
        count: p.count,
        width: p.width,
    }
}

// The answer for two sheets of which none is refused.
fn likened(first: &[u8], second: &[u8], left: &mut [i32], right: &mut [i32]) -> Compared
    requires { Planned (planning first.now left.old) × Planned (planning second.now right.old) }
    ensures answer { compare_answer (Ok result) ≡ comparing first.now second.now left.old right.old }
    ensures left { left.new ≡ space_after (planning first.now left.old) left.old }
    ensures right { right.new ≡ space_after (planning second.now right.old) right.old }
{
    let p = plan(first, left).unwrap();
    let q = plan(second, right).unwrap();
    let a = extent_of(p);
    let b = extent_of(q);
    if p.triggers != q.triggers || p.spares != q.spares {
        return Compared::Unlike(a, b);
    }
    if p.count == q.count && same_lines(left, p.width, right, q.width, p.count) {
        return Compared::Same(a, b);
    }
    Compared::Different(a, b)
}

// Whether the first lines of two spaces are the same, their caps left out: a line takes `wide` words on the left and `broad` on the right.
fn same_lines(left: &[i32], wide: usize, right: &[i32], broad: usize, count: usize) -> bool
    requires { (line_size ≤ wide) × (line_size ≤ broad) × (wide * count ≤ length left.now) × (broad * count ≤ length right.now) }
    ensures { Says (uncapped wide count left.now ≡ uncapped broad count right.now) result }
{
    for k in 0..count {
        if !same_words(left, wide * k, right, broad * k) {
            return false;
        }
    }
    true
}

// Whether the seven words from two places on are the same.
fn same_words(left: &[i32], from: usize, right: &[i32], at: usize) -> bool
    requires { (from + line_size ≤ length left.now) × (at + line_size ≤ length right.now) }
    ensures { Says (take line_size (drop from left.now) ≡ take line_size (drop at right.now)) result }
{
    left[from..from + LINE_SIZE] == right[at..at + LINE_SIZE]
}
