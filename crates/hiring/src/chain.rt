// A chain of sheets: each starts from the state that the one before returned.
ghost use Rattle.std.specs.Prelude.{◌≡◌, ℕ, ◌+◌, ◌*◌, ◌%◌, ◌^◌, ◌<◌, ◌≤◌};
ghost use Rattle.cue.specs.Sizes.{size_limit};
ghost use Rattle.hiring.specs.Hiring.{stride, draws, chained};

use crate::{MOST, STRIDE};

// So many states there are: behind the last one comes 0 again.
const STATES: u64 = 0x1_0000_0000;

// The state from which the sheet starts that k others of the chain precede, where `before` is the remainder of k by 2^32: as many draws at once
// as k sheets take. With other sizes there is no chain, and the state stays.
pub fn later_state(panels: usize, triggers: usize, state: u32, before: u32) -> u32
    ensures { (k : ℕ) → before ≡ k % 2 ^ 32 → panels ≤ size_limit → triggers ≤ size_limit →
        result ≡ chained panels triggers state k }
{
    if MOST < panels {
        return state;
    }
    if MOST < triggers {
        return state;
    }
    let steps = u64::from(before) * draws_of(panels, triggers) % STATES;
    advanced(state, steps)
}

// The draws of one sheet.
fn draws_of(panels: usize, triggers: usize) -> u64
    requires { (panels ≤ size_limit) × (triggers ≤ size_limit) }
    ensures few { result ≤ 84 }
    ensures is { result ≡ draws panels triggers }
{
    (panels * triggers + panels + triggers + triggers * triggers) as u64
}

// The state behind so many draws.
fn advanced(state: u32, steps: u64) -> u32
    requires { steps < 2 ^ 32 }
    ensures { result ≡ (state + steps * stride) % 2 ^ 32 }
{
    ((u64::from(state) + steps * u64::from(STRIDE) % STATES) % STATES) as u32
}
