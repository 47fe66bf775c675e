// What the arguments ask for: sizes, a state, and how many sheets of the chain go before.
ghost use Rattle.std.specs.Prelude.{◌≡◌, min, ℤ};
ghost use Rattle.maxplus.specs.Whole.{up};
ghost use Rattle.argument.specs.Whole.{word_limit};
ghost use Rattle.argument.specs.Inner.{parts};
ghost use Rattle.hire.specs.Call.{asked};
ghost use Rattle.hire.specs.Inner.{state_of, before_of, held};

use argument::whole::{WORD_LIMIT, Whole, read_whole};

// The numbers of a call.
#[derive(Clone, Copy)]
pub struct Call {
    pub panels: usize,
    pub triggers: usize,
    pub state: u32,
    pub before: u32,
}

// The numbers that the arguments give, if the call is no wrong one.
pub fn call_of(panels: &[u8], triggers: &[u8], state: &[u8], number: &[u8]) -> Option<Call>
    ensures { result ≡ held (asked panels.now triggers.now state.now number.now) }
{
    let m = read_whole(panels)?;
    let n = read_whole(triggers)?;
    let s = read_whole(state)?;
    let k = read_whole(number)?;
    let state = state_of(s)?;
    let before = before_of(k)?;
    Some(Call {
        panels: size_of(m),
        triggers: size_of(n),
        state,
        before,
    })
}

// The state: a number from 0 to 2^32 - 1.
fn state_of(w: Whole) -> Option<u32>
    ensures { (z : ℤ) → w ≡ parts z → result ≡ state_of z }
{
    if w.negative {
        return None;
    }
    if w.size < WORD_LIMIT {
        return Some(w.rest);
    }
    None
}

// How many sheets go before the one of that place, a number from 1 on, as far as it counts.
fn before_of(w: Whole) -> Option<u32>
    ensures { (z : ℤ) → w ≡ parts z → result ≡ before_of z }
{
    if w.negative {
        return None;
    }
    if 0 < w.size {
        return Some(w.rest.wrapping_sub(1));
    }
    None
}

// A size as far as it counts: 0 for one below 0, 2^32 for one beyond that.
fn size_of(w: Whole) -> usize
    ensures { (z : ℤ) → w ≡ parts z → result ≡ min (up z) word_limit }
{
    if w.negative {
        return 0;
    }
    w.size as usize
}
